//! Conditions on an object (kube-runtime's `wait::conditions`).

ghost use Rattle.std.specs.Prelude.{◌≡◌, true, false, not, find, option_copied};
ghost use Rattle.std.specs.List.{list_all};
ghost use Rattle.std.specs.Str.{bytes_eq};
ghost use Rattle.kube_final.specs.Conditions.{BothHold, OneHolds, has_address, has_true, has_uid, is_balanced, is_completed, is_deleted as deleted, is_deployed, is_established, is_ingress_provisioned as ingress_provisioned, is_provisioned, is_rolled_out, is_running, is_service_provisioned as service_provisioned, is_there, is_true, says_true};

use crate::kinds::{CustomResourceDefinition, Deployment, Ingress, Job, Pod, Service};
use crate::parts::{
    ConditionsStatus, ExposedStatus, LoadBalancerIngress, ServiceSpec, StatusCondition,
};
use crate::wait::Condition;
use kube_meta::{ObjectMeta, Resource, Text};

/// Whether a text is there and is this one.
fn is_text(text: &Option<Text>, wanted: &str) -> bool
    ensures { result ≡ is_there (λ t. bytes_eq t wanted.now) text.now }
{
    match text {
        Some(text) => text.as_str() == wanted,
        None => false,
    }
}

fn says_true(condition: &StatusCondition) -> bool
    ensures { result ≡ says_true condition.now }
{
    condition.status.as_str() == "True"
}

fn first_of<'a>(conditions: &'a [StatusCondition], kind: &str) -> Option<&'a StatusCondition>
    ensures { option_copied result ≡ find (λ c. bytes_eq c.type_ kind.now) conditions.now }
{
    conditions
        .iter()
        .find(|condition| condition.type_.as_str() == kind)
}

/// Whether the first condition of a type has the status `True`.
fn is_true(conditions: &[StatusCondition], kind: &str) -> bool
    ensures { result ≡ is_true kind.now conditions.now }
{
    match first_of(conditions, kind) {
        Some(condition) => says_true(condition),
        None => false,
    }
}

fn has_true(status: &Option<ConditionsStatus>, kind: &str) -> bool
    ensures { result ≡ has_true kind.now status.now }
{
    let Some(status) = status else {
        return false;
    };
    match &status.conditions {
        Some(conditions) => is_true(conditions.as_slice(), kind),
        None => false,
    }
}

fn is_rolled_out(condition: &StatusCondition) -> bool
    ensures { result ≡ is_rolled_out condition.now }
{
    condition.type_.as_str() == "Progressing"
        && is_text(&condition.reason, "NewReplicaSetAvailable")
}

fn first_rolled_out(conditions: &[StatusCondition]) -> Option<&StatusCondition>
    ensures { option_copied result ≡ find is_rolled_out conditions.now }
{
    conditions.iter().find(|condition| is_rolled_out(condition))
}

/// Whether the first condition of a new replica set has the status `True`.
fn is_deployed(conditions: &[StatusCondition]) -> bool
    ensures { result ≡ is_there says_true (find is_rolled_out conditions.now) }
{
    match first_rolled_out(conditions) {
        Some(condition) => says_true(condition),
        None => false,
    }
}

fn has_address(ingress: &LoadBalancerIngress) -> bool
    ensures { result ≡ has_address ingress.now }
{
    ingress.ip.is_some() || ingress.hostname.is_some()
}

fn have_addresses(entries: &[LoadBalancerIngress]) -> bool
    ensures { result ≡ list_all has_address entries.now }
{
    entries.iter().all(|entry| has_address(entry))
}

fn is_provisioned(status: &Option<ExposedStatus>) -> bool
    ensures { result ≡ is_provisioned status.now }
{
    let Some(status) = status else {
        return false;
    };
    let Some(balancer) = &status.load_balancer else {
        return false;
    };
    match &balancer.ingress {
        Some(ingress) => have_addresses(ingress.as_slice()),
        None => false,
    }
}

fn is_balanced(spec: &ServiceSpec) -> bool
    ensures { result ≡ is_balanced spec.now }
{
    is_text(&spec.type_, "LoadBalancer")
}

/// What `is_deleted` gives.
#[derive(Clone, Copy, Debug, PartialEq, Eq)]
pub struct IsDeleted<'a> {
    uid: &'a str,
}

/// The object of a uid is gone, or another one is there.
pub fn is_deleted(uid: &str) -> IsDeleted<'_>
    ensures { result.uid.now ≡ uid.now }
{
    IsDeleted { uid }
}

impl<'a, K: Resource> Condition<K> for IsDeleted<'a> {
    ghost says = { λ c object answer. answer ≡ deleted K.meta_of c.uid.now object };

    fn matches_object(&self, obj: Option<&K>) -> bool {
        match obj {
            Some(object) => !is_text(&object.meta().uid, self.uid),
            None => true,
        }
    }
}

/// What `is_created` gives.
#[derive(Clone, Copy, Debug, PartialEq, Eq)]
pub struct IsCreated;

/// The object is there.
pub fn is_created() -> IsCreated {
    IsCreated
}

impl<K: Resource> Condition<K> for IsCreated {
    ghost use Rattle.std.specs.Prelude.{is_some};

    ghost says = { λ c object answer. answer ≡ is_some object };

    fn matches_object(&self, obj: Option<&K>) -> bool {
        obj.is_some()
    }
}

/// What `is_crd_established` gives.
#[derive(Clone, Copy, Debug, PartialEq, Eq)]
pub struct IsCrdEstablished;

/// The API server serves the custom resource.
pub fn is_crd_established() -> IsCrdEstablished {
    IsCrdEstablished
}

impl Condition<CustomResourceDefinition> for IsCrdEstablished {
    ghost says = { λ c object answer. answer ≡ is_established object };

    fn matches_object(&self, obj: Option<&CustomResourceDefinition>) -> bool {
        match obj {
            Some(definition) => has_true(&definition.status, "Established"),
            None => false,
        }
    }
}

/// What `is_pod_running` gives.
#[derive(Clone, Copy, Debug, PartialEq, Eq)]
pub struct IsPodRunning;

/// The pod runs.
pub fn is_pod_running() -> IsPodRunning {
    IsPodRunning
}

impl Condition<Pod> for IsPodRunning {
    ghost says = { λ c object answer. answer ≡ is_running object };

    fn matches_object(&self, obj: Option<&Pod>) -> bool {
        let Some(pod) = obj else {
            return false;
        };
        match &pod.status {
            Some(status) => is_text(&status.phase, "Running"),
            None => false,
        }
    }
}

/// What `is_job_completed` gives.
#[derive(Clone, Copy, Debug, PartialEq, Eq)]
pub struct IsJobCompleted;

/// The job has completed.
pub fn is_job_completed() -> IsJobCompleted {
    IsJobCompleted
}

impl Condition<Job> for IsJobCompleted {
    ghost says = { λ c object answer. answer ≡ is_completed object };

    fn matches_object(&self, obj: Option<&Job>) -> bool {
        match obj {
            Some(job) => has_true(&job.status, "Complete"),
            None => false,
        }
    }
}

/// What `is_deployment_completed` gives.
#[derive(Clone, Copy, Debug, PartialEq, Eq)]
pub struct IsDeploymentCompleted;

/// The new replica set of the deployment is available.
pub fn is_deployment_completed() -> IsDeploymentCompleted {
    IsDeploymentCompleted
}

impl Condition<Deployment> for IsDeploymentCompleted {
    ghost says = { λ c object answer. answer ≡ is_deployed object };

    fn matches_object(&self, obj: Option<&Deployment>) -> bool {
        let Some(deployment) = obj else {
            return false;
        };
        let Some(status) = &deployment.status else {
            return false;
        };
        match &status.conditions {
            Some(conditions) => is_deployed(conditions.as_slice()),
            None => false,
        }
    }
}

/// What `is_service_loadbalancer_provisioned` gives.
#[derive(Clone, Copy, Debug, PartialEq, Eq)]
pub struct IsServiceLoadbalancerProvisioned;

/// The service needs no load balancer, or each entry of its load balancer has an address.
pub fn is_service_loadbalancer_provisioned() -> IsServiceLoadbalancerProvisioned {
    IsServiceLoadbalancerProvisioned
}

impl Condition<Service> for IsServiceLoadbalancerProvisioned {
    ghost says = { λ c object answer. answer ≡ service_provisioned object };

    fn matches_object(&self, obj: Option<&Service>) -> bool {
        let Some(service) = obj else {
            return false;
        };
        match &service.spec {
            Some(spec) => !is_balanced(spec) || is_provisioned(&service.status),
            None => false,
        }
    }
}

/// What `is_ingress_provisioned` gives.
#[derive(Clone, Copy, Debug, PartialEq, Eq)]
pub struct IsIngressProvisioned;

/// Each entry of the load balancer of the ingress has an address.
pub fn is_ingress_provisioned() -> IsIngressProvisioned {
    IsIngressProvisioned
}

impl Condition<Ingress> for IsIngressProvisioned {
    ghost says = { λ c object answer. answer ≡ ingress_provisioned object };

    fn matches_object(&self, obj: Option<&Ingress>) -> bool {
        match obj {
            Some(ingress) => is_provisioned(&ingress.status),
            None => false,
        }
    }
}

/// A condition that doesn't hold (what `Condition::not` gives).
#[derive(Clone, Copy, Debug, Drop, PartialEq, Eq)]
pub struct Not<A> {
    pub condition: A,
}

impl<K, A: Condition<K>> Condition<K> for Not<A> {
    ghost says = { λ c object answer. A.says c.condition object (not answer) };

    ghost may = { λ c object. A.may c.condition object };

    fn matches_object(&self, obj: Option<&K>) -> bool {
        !self.condition.matches_object(obj)
    }
}

/// Two conditions that both hold (what `Condition::and` gives). The second is asked exactly where the first holds: so only
/// there it must be such that it may be asked.
#[derive(Clone, Copy, Debug, Drop, PartialEq, Eq)]
pub struct And<A, B> {
    pub first: A,
    pub second: B,
}

impl<K, A: Condition<K>, B: Condition<K>> Condition<K> for And<A, B> {
    ghost says = { λ c object answer. BothHold (A.says c.first object) (B.says c.second object) answer };

    ghost may = { λ c object. A.may c.first object × (A.says c.first object true → B.may c.second object) };

    fn matches_object(&self, obj: Option<&K>) -> bool {
        self.first.matches_object(obj) && self.second.matches_object(obj)
    }
}

/// Two conditions of which one holds (what `Condition::or` gives). The second is asked exactly where the first doesn't
/// hold: so only there it must be such that it may be asked.
#[derive(Clone, Copy, Debug, Drop, PartialEq, Eq)]
pub struct Or<A, B> {
    pub first: A,
    pub second: B,
}

impl<K, A: Condition<K>, B: Condition<K>> Condition<K> for Or<A, B> {
    ghost says = { λ c object answer. OneHolds (A.says c.first object) (B.says c.second object) answer };

    ghost may = { λ c object. A.may c.first object × (A.says c.first object false → B.may c.second object) };

    fn matches_object(&self, obj: Option<&K>) -> bool {
        self.first.matches_object(obj) || self.second.matches_object(obj)
    }
}
