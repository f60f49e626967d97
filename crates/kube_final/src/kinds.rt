//! Objects of known types, as far as conditions ask them: their metadata, and parts that may be absent.

ghost use Rattle.std.specs.Prelude.{◌≡◌, refl, codes};
ghost use Rattle.serde_json.specs.View.{view};
ghost use Rattle.kube_meta.specs.Places.{Gives};
ghost use Rattle.kube_final.specs.Kinds.{definition_at, deployment_at, ingress_object_at, job_at, pod_at, service_at};

use crate::parts::{ConditionsStatus, ExposedStatus, PodStatus, ServiceSpec};
use kube_meta::reading::maybe_member;
use kube_meta::{DynamicObject, ObjectFault, ObjectMeta, Resource};
use std::alloc::Global;

/// A pod (Kubernetes API: `v1` `Pod`).
#[derive(Debug, Drop)]
pub struct Pod {
    pub metadata: ObjectMeta,
    pub status: Option<PodStatus>,
}

impl Pod {
    /// It, of an object whose type is known only as the program runs; the object's own word on its type is not asked. Null
    /// counts as absent.
    ///
    /// Errors: `Shape` with the place, a JSON pointer (RFC 6901), of the first part of another form; `NoMemory`.
    #[tactic(auto, unfolding(crate::specs::Kinds::pod_at))]
    pub fn from_dynamic(alloc: Global, object: &DynamicObject) -> Result<Pod, ObjectFault>
        ensures { Gives (λ x. x) result (pod_at object.now.metadata (view object.now.content)) }
    {
        let status = maybe_member(alloc, &object.content, "status")?;
        let metadata = object.metadata.copy(alloc)?;
        Ok(Pod { metadata, status })
    }
}

impl Resource for Pod {
    type DynamicType = ();

    ghost type_of = { λ _. record { group = codes ""; version = codes "v1"; kind = codes "Pod"; plural = codes "pods" } };

    ghost meta_of = { λ o. o.metadata };

    ghost with_meta = { λ o m. record o { metadata = m } };

    ghost one_type = { λ a b h. refl };

    ghost written = { λ o m. refl };

    fn kind(_t: &()) -> &str {
        "Pod"
    }

    fn group(_t: &()) -> &str {
        ""
    }

    fn version(_t: &()) -> &str {
        "v1"
    }

    fn plural(_t: &()) -> &str {
        "pods"
    }

    fn meta(&self) -> &ObjectMeta {
        &self.metadata
    }

    fn meta_mut(&mut self) -> &mut ObjectMeta {
        &mut self.metadata
    }
}

/// A job (Kubernetes API: `batch/v1` `Job`).
#[derive(Debug, Drop)]
pub struct Job {
    pub metadata: ObjectMeta,
    pub status: Option<ConditionsStatus>,
}

impl Job {
    /// It, of an object whose type is known only as the program runs; the object's own word on its type is not asked. Null
    /// counts as absent.
    ///
    /// Errors: `Shape` with the place, a JSON pointer (RFC 6901), of the first part of another form; `NoMemory`.
    #[tactic(auto, unfolding(crate::specs::Kinds::job_at))]
    pub fn from_dynamic(alloc: Global, object: &DynamicObject) -> Result<Job, ObjectFault>
        ensures { Gives (λ x. x) result (job_at object.now.metadata (view object.now.content)) }
    {
        let status = maybe_member(alloc, &object.content, "status")?;
        let metadata = object.metadata.copy(alloc)?;
        Ok(Job { metadata, status })
    }
}

impl Resource for Job {
    type DynamicType = ();

    ghost type_of = { λ _. record { group = codes "batch"; version = codes "v1"; kind = codes "Job"; plural = codes "jobs" } };

    ghost meta_of = { λ o. o.metadata };

    ghost with_meta = { λ o m. record o { metadata = m } };

    ghost one_type = { λ a b h. refl };

    ghost written = { λ o m. refl };

    fn kind(_t: &()) -> &str {
        "Job"
    }

    fn group(_t: &()) -> &str {
        "batch"
    }

    fn version(_t: &()) -> &str {
        "v1"
    }

    fn plural(_t: &()) -> &str {
        "jobs"
    }

    fn meta(&self) -> &ObjectMeta {
        &self.metadata
    }

    fn meta_mut(&mut self) -> &mut ObjectMeta {
        &mut self.metadata
    }
}

/// A deployment (Kubernetes API: `apps/v1` `Deployment`).
#[derive(Debug, Drop)]
pub struct Deployment {
    pub metadata: ObjectMeta,
    pub status: Option<ConditionsStatus>,
}

impl Deployment {
    /// It, of an object whose type is known only as the program runs; the object's own word on its type is not asked. Null
    /// counts as absent.
    ///
    /// Errors: `Shape` with the place, a JSON pointer (RFC 6901), of the first part of another form; `NoMemory`.
    #[tactic(auto, unfolding(crate::specs::Kinds::deployment_at))]
    pub fn from_dynamic(alloc: Global, object: &DynamicObject) -> Result<Deployment, ObjectFault>
        ensures { Gives (λ x. x) result (deployment_at object.now.metadata (view object.now.content)) }
    {
        let status = maybe_member(alloc, &object.content, "status")?;
        let metadata = object.metadata.copy(alloc)?;
        Ok(Deployment { metadata, status })
    }
}

impl Resource for Deployment {
    type DynamicType = ();

    ghost type_of = { λ _. record { group = codes "apps"; version = codes "v1"; kind = codes "Deployment"; plural = codes "deployments" } };

    ghost meta_of = { λ o. o.metadata };

    ghost with_meta = { λ o m. record o { metadata = m } };

    ghost one_type = { λ a b h. refl };

    ghost written = { λ o m. refl };

    fn kind(_t: &()) -> &str {
        "Deployment"
    }

    fn group(_t: &()) -> &str {
        "apps"
    }

    fn version(_t: &()) -> &str {
        "v1"
    }

    fn plural(_t: &()) -> &str {
        "deployments"
    }

    fn meta(&self) -> &ObjectMeta {
        &self.metadata
    }

    fn meta_mut(&mut self) -> &mut ObjectMeta {
        &mut self.metadata
    }
}

/// A service (Kubernetes API: `v1` `Service`).
#[derive(Debug, Drop)]
pub struct Service {
    pub metadata: ObjectMeta,
    pub spec: Option<ServiceSpec>,
    pub status: Option<ExposedStatus>,
}

impl Service {
    /// It, of an object whose type is known only as the program runs; the object's own word on its type is not asked. Null
    /// counts as absent.
    ///
    /// Errors: `Shape` with the place, a JSON pointer (RFC 6901), of the first part of another form; `NoMemory`.
    #[tactic(auto, unfolding(crate::specs::Kinds::service_at))]
    pub fn from_dynamic(alloc: Global, object: &DynamicObject) -> Result<Service, ObjectFault>
        ensures { Gives (λ x. x) result (service_at object.now.metadata (view object.now.content)) }
    {
        let spec = maybe_member(alloc, &object.content, "spec")?;
        let status = maybe_member(alloc, &object.content, "status")?;
        let metadata = object.metadata.copy(alloc)?;
        Ok(Service {
            metadata,
            spec,
            status,
        })
    }
}

impl Resource for Service {
    type DynamicType = ();

    ghost type_of = { λ _. record { group = codes ""; version = codes "v1"; kind = codes "Service"; plural = codes "services" } };

    ghost meta_of = { λ o. o.metadata };

    ghost with_meta = { λ o m. record o { metadata = m } };

    ghost one_type = { λ a b h. refl };

    ghost written = { λ o m. refl };

    fn kind(_t: &()) -> &str {
        "Service"
    }

    fn group(_t: &()) -> &str {
        ""
    }

    fn version(_t: &()) -> &str {
        "v1"
    }

    fn plural(_t: &()) -> &str {
        "services"
    }

    fn meta(&self) -> &ObjectMeta {
        &self.metadata
    }

    fn meta_mut(&mut self) -> &mut ObjectMeta {
        &mut self.metadata
    }
}

/// An ingress (Kubernetes API: `networking.k8s.io/v1` `Ingress`).
#[derive(Debug, Drop)]
pub struct Ingress {
    pub metadata: ObjectMeta,
    pub status: Option<ExposedStatus>,
}

impl Ingress {
    /// It, of an object whose type is known only as the program runs; the object's own word on its type is not asked. Null
    /// counts as absent.
    ///
    /// Errors: `Shape` with the place, a JSON pointer (RFC 6901), of the first part of another form; `NoMemory`.
    #[tactic(auto, unfolding(crate::specs::Kinds::ingress_object_at))]
    pub fn from_dynamic(alloc: Global, object: &DynamicObject) -> Result<Ingress, ObjectFault>
        ensures { Gives (λ x. x) result (ingress_object_at object.now.metadata (view object.now.content)) }
    {
        let status = maybe_member(alloc, &object.content, "status")?;
        let metadata = object.metadata.copy(alloc)?;
        Ok(Ingress { metadata, status })
    }
}

impl Resource for Ingress {
    type DynamicType = ();

    ghost type_of = { λ _. record { group = codes "networking.k8s.io"; version = codes "v1"; kind = codes "Ingress"; plural = codes "ingresses" } };

    ghost meta_of = { λ o. o.metadata };

    ghost with_meta = { λ o m. record o { metadata = m } };

    ghost one_type = { λ a b h. refl };

    ghost written = { λ o m. refl };

    fn kind(_t: &()) -> &str {
        "Ingress"
    }

    fn group(_t: &()) -> &str {
        "networking.k8s.io"
    }

    fn version(_t: &()) -> &str {
        "v1"
    }

    fn plural(_t: &()) -> &str {
        "ingresses"
    }

    fn meta(&self) -> &ObjectMeta {
        &self.metadata
    }

    fn meta_mut(&mut self) -> &mut ObjectMeta {
        &mut self.metadata
    }
}

/// A definition of a custom resource (Kubernetes API: `apiextensions.k8s.io/v1` `CustomResourceDefinition`).
#[derive(Debug, Drop)]
pub struct CustomResourceDefinition {
    pub metadata: ObjectMeta,
    pub status: Option<ConditionsStatus>,
}

impl CustomResourceDefinition {
    /// It, of an object whose type is known only as the program runs; the object's own word on its type is not asked. Null
    /// counts as absent.
    ///
    /// Errors: `Shape` with the place, a JSON pointer (RFC 6901), of the first part of another form; `NoMemory`.
    #[tactic(auto, unfolding(crate::specs::Kinds::definition_at))]
    pub fn from_dynamic(
        alloc: Global,
        object: &DynamicObject,
    ) -> Result<CustomResourceDefinition, ObjectFault>
        ensures { Gives (λ x. x) result (definition_at object.now.metadata (view object.now.content)) }
    {
        let status = maybe_member(alloc, &object.content, "status")?;
        let metadata = object.metadata.copy(alloc)?;
        Ok(CustomResourceDefinition { metadata, status })
    }
}

impl Resource for CustomResourceDefinition {
    type DynamicType = ();

    ghost type_of = { λ _. record { group = codes "apiextensions.k8s.io"; version = codes "v1"; kind = codes "CustomResourceDefinition"; plural = codes "customresourcedefinitions" } };

    ghost meta_of = { λ o. o.metadata };

    ghost with_meta = { λ o m. record o { metadata = m } };

    ghost one_type = { λ a b h. refl };

    ghost written = { λ o m. refl };

    fn kind(_t: &()) -> &str {
        "CustomResourceDefinition"
    }

    fn group(_t: &()) -> &str {
        "apiextensions.k8s.io"
    }

    fn version(_t: &()) -> &str {
        "v1"
    }

    fn plural(_t: &()) -> &str {
        "customresourcedefinitions"
    }

    fn meta(&self) -> &ObjectMeta {
        &self.metadata
    }

    fn meta_mut(&mut self) -> &mut ObjectMeta {
        &mut self.metadata
    }
}
