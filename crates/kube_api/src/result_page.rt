//! Pages for a script, part by part.

ghost use Rattle.std.specs.Prelude.{◌≡◌, [], None, IfOk, map, option_copied};
ghost use Rattle.std.specs.Arc.{arc_value};

use crate::event::Page;
use kube_meta::{List, NoMemory, Text};
use std::alloc::Global;
use std::marker::Model;
use std::sync::Arc;

/// A page that is made part by part (kube-runtime's `ResultPage`).
///
/// Contracts see it as its objects, its token and its version.
#[derive(Drop)]
pub struct ResultPage<K: Drop> {
    page: Page<K>,
}

impl<K: Drop> Model for ResultPage<K> {
    ghost use Rattle.kube_api.specs.Pages.{Parts};

    ghost Value = { Parts K };

    ghost use Rattle.kube_api.specs.Pages.{parts_of};

    ghost view = { λ r. parts_of r.page };
}

impl<K: Drop> ResultPage<K> {
    ghost use Rattle.kube_api.specs.Pages.{parts_of};

    /// A page without objects, token and version.
    pub fn empty(alloc: Global) -> ResultPage<K>
        ensures { result ≡ record { items = []; token = None; version = None } }
    {
        ResultPage {
            page: Page {
                items: List::new(alloc),
                token: None,
                version: None,
            },
        }
    }

    /// The page with this token, or with none.
    ///
    /// Errors: `NoMemory`; the page is dropped.
    pub fn continue_token(
        self,
        alloc: Global,
        token: Option<&str>,
    ) -> Result<ResultPage<K>, NoMemory>
        ensures { IfOk result (λ r. r ≡ record self { token = option_copied token.entry }) }
    {
        let ResultPage { page } = self;
        let token = copy_text(alloc, token)?;
        Ok(ResultPage {
            page: Page { token, ..page },
        })
    }

    /// The page with this version, or with none.
    ///
    /// Errors: `NoMemory`; the page is dropped.
    pub fn resource_version(
        self,
        alloc: Global,
        version: Option<&str>,
    ) -> Result<ResultPage<K>, NoMemory>
        ensures { IfOk result (λ r. r ≡ record self { version = option_copied version.entry }) }
    {
        let ResultPage { page } = self;
        let version = copy_text(alloc, version)?;
        Ok(ResultPage {
            page: Page { version, ..page },
        })
    }

    /// The page with these objects.
    pub fn items(self, items: Vec<Arc<K>>) -> ResultPage<K>
        ensures { result ≡ record self { items = map arc_value items.items } }
    {
        let ResultPage { page } = self;
        ResultPage {
            page: Page {
                items: List::from(items),
                ..page
            },
        }
    }

    /// The page itself.
    pub fn into_page(self) -> Page<K>
        ensures { parts_of result ≡ self }
    {
        let ResultPage { page } = self;
        page
    }
}

/// A copy of a text that may be absent.
fn copy_text(alloc: Global, text: Option<&str>) -> Result<Option<Text>, NoMemory>
    ensures { IfOk result (λ t. t ≡ option_copied text.entry) }
{
    match text {
        Some(text) => Ok(Some(Text::new(alloc, text)?)),
        None => Ok(None),
    }
}
