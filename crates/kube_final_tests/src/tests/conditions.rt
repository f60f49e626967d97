//! Truth tables of the conditions of known types, with parts that are absent.

use super::object;
use kube_final::conditions::{
    is_crd_established, is_deployment_completed, is_ingress_provisioned, is_job_completed,
    is_pod_running, is_service_loadbalancer_provisioned,
};
use kube_final::kinds::{CustomResourceDefinition, Deployment, Ingress, Job, Pod, Service};
use kube_final::wait::Condition;
use kube_meta::{DynamicObject, ObjectFault};
use std::alloc::Global;
use std::process::Abort;
use std::rt::HostRuntime;

/// A condition, an object as JSON, and the answer: `true`, `false`, or the place of what has another form.
const ROWS: &str = r#"pod {} false
pod {"status":null} false
pod {"status":{}} false
pod {"status":{"phase":"Pending"}} false
pod {"status":{"phase":"Running"}} true
pod {"status":{"phase":7}} /status/phase
pod {"status":[]} /status
job {} false
job {"status":{}} false
job {"status":{"conditions":[]}} false
job {"status":{"conditions":[{"type":"Failed","status":"True"}]}} false
job {"status":{"conditions":[{"type":"Complete","status":"False"}]}} false
job {"status":{"conditions":[{"type":"Complete","status":"True"}]}} true
job {"status":{"conditions":[{"type":"Failed","status":"False"},{"type":"Complete","status":"True"}]}} true
job {"status":{"conditions":[{"type":"Complete","status":"False"},{"type":"Complete","status":"True"}]}} false
job {"status":{"conditions":[{"type":"Complete","status":"True"},{"status":"True"}]}} /status/conditions/1/type
crd {} false
crd {"status":{"conditions":[{"type":"Established","status":"True"}]}} true
crd {"status":{"conditions":[{"type":"NamesAccepted","status":"True"}]}} false
crd {"status":{"conditions":[{"type":"Established","status":"Unknown"}]}} false
deployment {} false
deployment {"status":{"conditions":[{"type":"Progressing","status":"True"}]}} false
deployment {"status":{"conditions":[{"type":"Progressing","status":"True","reason":"ReplicaSetUpdated"}]}} false
deployment {"status":{"conditions":[{"type":"Progressing","status":"True","reason":"NewReplicaSetAvailable"}]}} true
deployment {"status":{"conditions":[{"type":"Progressing","status":"False","reason":"NewReplicaSetAvailable"}]}} false
deployment {"status":{"conditions":[{"type":"Available","status":"True","reason":"NewReplicaSetAvailable"}]}} false
service {} false
service {"status":{"loadBalancer":{"ingress":[]}}} false
service {"spec":{}} true
service {"spec":{"type":"ClusterIP"}} true
service {"spec":{"type":"LoadBalancer"}} false
service {"spec":{"type":"LoadBalancer"},"status":{"loadBalancer":{}}} false
service {"spec":{"type":"LoadBalancer"},"status":{"loadBalancer":{"ingress":[]}}} true
service {"spec":{"type":"LoadBalancer"},"status":{"loadBalancer":{"ingress":[{"ip":"10.0.0.1"}]}}} true
service {"spec":{"type":"LoadBalancer"},"status":{"loadBalancer":{"ingress":[{"ip":"10.0.0.1"},{}]}}} false
service {"spec":{"type":1}} /spec/type
ingress {} false
ingress {"status":{}} false
ingress {"status":{"loadBalancer":{}}} false
ingress {"status":{"loadBalancer":{"ingress":null}}} false
ingress {"status":{"loadBalancer":{"ingress":[]}}} true
ingress {"status":{"loadBalancer":{"ingress":[{"hostname":"a.example"}]}}} true
ingress {"status":{"loadBalancer":{"ingress":[{"hostname":"a.example"},{"ports":[]}]}}} false
ingress {"status":{"loadBalancer":{"ingress":[[]]}}} /status/loadBalancer/ingress/0"#;

fn pod_runs(alloc: Global, object: &DynamicObject) -> Result<bool, ObjectFault> {
    match Pod::from_dynamic(alloc, object) {
        Ok(pod) => Ok(is_pod_running().matches_object(Some(&pod))),
        Err(fault) => Err(fault),
    }
}

fn job_completed(alloc: Global, object: &DynamicObject) -> Result<bool, ObjectFault> {
    match Job::from_dynamic(alloc, object) {
        Ok(job) => Ok(is_job_completed().matches_object(Some(&job))),
        Err(fault) => Err(fault),
    }
}

fn crd_established(alloc: Global, object: &DynamicObject) -> Result<bool, ObjectFault> {
    match CustomResourceDefinition::from_dynamic(alloc, object) {
        Ok(definition) => Ok(is_crd_established().matches_object(Some(&definition))),
        Err(fault) => Err(fault),
    }
}

fn deployment_completed(alloc: Global, object: &DynamicObject) -> Result<bool, ObjectFault> {
    match Deployment::from_dynamic(alloc, object) {
        Ok(deployment) => Ok(is_deployment_completed().matches_object(Some(&deployment))),
        Err(fault) => Err(fault),
    }
}

fn service_provisioned(alloc: Global, object: &DynamicObject) -> Result<bool, ObjectFault> {
    match Service::from_dynamic(alloc, object) {
        Ok(service) => Ok(is_service_loadbalancer_provisioned().matches_object(Some(&service))),
        Err(fault) => Err(fault),
    }
}

fn ingress_provisioned(alloc: Global, object: &DynamicObject) -> Result<bool, ObjectFault> {
    match Ingress::from_dynamic(alloc, object) {
        Ok(ingress) => Ok(is_ingress_provisioned().matches_object(Some(&ingress))),
        Err(fault) => Err(fault),
    }
}

/// What a condition answers of an object.
fn answer(alloc: Global, condition: &str, object: &DynamicObject) -> Result<bool, ObjectFault> {
    match condition {
        "pod" => pod_runs(alloc, object),
        "job" => job_completed(alloc, object),
        "crd" => crd_established(alloc, object),
        "deployment" => deployment_completed(alloc, object),
        "service" => service_provisioned(alloc, object),
        _ => ingress_provisioned(alloc, object),
    }
}

fn is_wanted(answer: Result<bool, ObjectFault>, wanted: &str) -> bool {
    match answer {
        Ok(true) => wanted == "true",
        Ok(false) => wanted == "false",
        Err(ObjectFault::Shape(place)) => place.as_str() == wanted,
        Err(_fault) => false,
    }
}

/// Whether a row's condition answers of its object what is wanted.
fn holds(rt: &impl Abort, alloc: Global, line: &str) -> bool {
    let (condition, rest) = line.split_once(' ').unwrap_or(("", ""));
    let (text, wanted) = rest.split_once(' ').unwrap_or(("", ""));
    let object = object(rt, alloc, text);
    is_wanted(answer(alloc, condition, &object), wanted)
}

#[test]
fn conditions_of_known_types(rt: HostRuntime) {
    for line in ROWS.split('\n') {
        assert_eq!(rt; holds(&rt, rt.alloc(), line), true, "{line}");
    }
}
