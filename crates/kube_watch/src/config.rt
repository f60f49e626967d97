//! How a watcher lists and watches.

ghost use Rattle.std.specs.Prelude.{◌≡◌, Some, None, true, false, IfOk};
ghost use Rattle.kube_meta.specs.Selectors.{selector_text};

use kube_meta::text::copy_option;
use kube_meta::{NoMemory, Selector, Text};
use std::alloc::Global;

/// Which version a list may be of (kube-runtime's `ListSemantic`; Kubernetes API concept "resourceVersion" of a list).
#[derive(Clone, Copy, Debug, PartialEq, Eq)]
pub enum ListSemantic {
    /// The newest.
    MostRecent,
    /// Any: the list is asked for version "0" with `NotOlderThan`.
    Any,
}

impl Default for ListSemantic {
    fn default() -> ListSemantic
        ensures { result ≡ ListSemantic.MostRecent }
    {
        ListSemantic::MostRecent
    }
}

/// How a watcher comes by the objects that are there (kube-runtime's `InitialListStrategy`).
#[derive(Clone, Copy, Debug, PartialEq, Eq)]
pub enum InitialListStrategy {
    /// By a list, page by page, and then a watch from its version.
    ListWatch,
    /// By a watch that sends them first (Kubernetes API concept "streaming lists").
    StreamingList,
}

impl Default for InitialListStrategy {
    fn default() -> InitialListStrategy
        ensures { result ≡ InitialListStrategy.ListWatch }
    {
        InitialListStrategy::ListWatch
    }
}

/// How a watcher lists and watches (kube-runtime's `watcher::Config`).
#[derive(Debug, Drop, PartialEq)]
pub struct Config {
    /// Which objects, by their labels; all where absent.
    pub label_selector: Option<Text>,
    /// Which objects, by their fields; all where absent.
    pub field_selector: Option<Text>,
    /// After how many seconds the server ends a watch. A watch that is silent for 5 seconds more is started again;
    /// 290 seconds are counted where it is absent, and where it is 0 no watch is ever started again for its silence.
    pub timeout: Option<u32>,
    /// Only lists have it: a start by a watch doesn't look at it.
    pub list_semantic: ListSemantic,
    pub initial_list_strategy: InitialListStrategy,
    /// At most so many objects in one page of a list; as many as the server will where it is absent. Only lists have pages:
    /// a start by a watch doesn't look at it.
    pub page_size: Option<u32>,
    /// Whether the server is asked for bookmarks. Without them the version from which a watch goes on is that of its last
    /// item, which may soon be too old, so that the watcher lists again. A start by a watch ends its initial events by a
    /// bookmark, and needs them.
    pub bookmarks: bool,
}

/// No selectors, no timeout, the newest version, by a list, pages of 500 objects, and bookmarks.
impl Default for Config {
    fn default() -> Config
        ensures { result ≡ record {
          label_selector = None;
          field_selector = None;
          timeout = None;
          list_semantic = ListSemantic.MostRecent;
          initial_list_strategy = InitialListStrategy.ListWatch;
          page_size = Some 500;
          bookmarks = true;
        } }
    {
        Config {
            label_selector: None,
            field_selector: None,
            timeout: None,
            list_semantic: ListSemantic::MostRecent,
            initial_list_strategy: InitialListStrategy::ListWatch,
            page_size: Some(500),
            bookmarks: true,
        }
    }
}

impl Config {
    /// With a timeout, in seconds.
    pub fn timeout(self, seconds: u32) -> Config
        ensures { result ≡ record self { timeout = Some seconds } }
    {
        Config {
            timeout: Some(seconds),
            ..self
        }
    }

    /// With a selector by fields.
    ///
    /// Errors: `NoMemory`.
    pub fn fields(self, alloc: Global, field_selector: &str) -> Result<Config, NoMemory>
        ensures { IfOk result (λ c. c ≡ record self { field_selector = Some field_selector.now }) }
    {
        let field_selector = Some(Text::new(alloc, field_selector)?);
        Ok(Config {
            field_selector,
            ..self
        })
    }

    /// With a selector by labels.
    ///
    /// Errors: `NoMemory`.
    pub fn labels(self, alloc: Global, label_selector: &str) -> Result<Config, NoMemory>
        ensures { IfOk result (λ c. c ≡ record self { label_selector = Some label_selector.now }) }
    {
        let label_selector = Some(Text::new(alloc, label_selector)?);
        Ok(Config {
            label_selector,
            ..self
        })
    }

    /// With the labels that a selector has, in its text.
    ///
    /// Errors: `NoMemory`.
    pub fn labels_from(self, alloc: Global, selector: &Selector) -> Result<Config, NoMemory>
        ensures { IfOk result (λ c. c ≡ record self { label_selector = Some (selector_text selector.now) }) }
    {
        let text = format!(in alloc; "{selector}")?;
        Ok(Config {
            label_selector: Some(Text::from(text)),
            ..self
        })
    }

    /// With this choice of a list's version.
    pub fn list_semantic(self, semantic: ListSemantic) -> Config
        ensures { result ≡ record self { list_semantic = semantic } }
    {
        Config {
            list_semantic: semantic,
            ..self
        }
    }

    /// With lists of any version: what a cache of the server has, which may be older than what was seen before.
    pub fn any_semantic(self) -> Config
        ensures { result ≡ record self { list_semantic = ListSemantic.Any } }
    {
        self.list_semantic(ListSemantic::Any)
    }

    /// Without bookmarks: not with `streaming_lists`, whose initial events a bookmark ends.
    pub fn disable_bookmarks(self) -> Config
        ensures { result ≡ record self { bookmarks = false } }
    {
        Config {
            bookmarks: false,
            ..self
        }
    }

    /// With pages of at most so many objects, which are fewer at once and more calls.
    pub fn page_size(self, page_size: u32) -> Config
        ensures { result ≡ record self { page_size = Some page_size } }
    {
        Config {
            page_size: Some(page_size),
            ..self
        }
    }

    /// By watches that send the objects that are there first. The server must know them, and `page_size` and the version of
    /// lists are then not looked at.
    pub fn streaming_lists(self) -> Config
        ensures { result ≡ record self { initial_list_strategy = InitialListStrategy.StreamingList } }
    {
        Config {
            initial_list_strategy: InitialListStrategy::StreamingList,
            ..self
        }
    }

    /// An equal configuration in memory of its own.
    ///
    /// Errors: `NoMemory`.
    pub fn copy(&self, alloc: Global) -> Result<Config, NoMemory>
        ensures { IfOk result (λ c. c ≡ self.now) }
    {
        Ok(Config {
            label_selector: copy_option(alloc, &self.label_selector)?,
            field_selector: copy_option(alloc, &self.field_selector)?,
            timeout: self.timeout,
            list_semantic: self.list_semantic,
            initial_list_strategy: self.initial_list_strategy,
            page_size: self.page_size,
            bookmarks: self.bookmarks,
        })
    }
}
