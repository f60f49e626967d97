//! How a controller takes messages.

ghost use Rattle.std.specs.Prelude.{◌≡◌};

/// How long a controller holds messages, and how many objects it reconciles at a time (kube-runtime's `controller::Config`).
#[derive(Clone, Copy, Debug, PartialEq, Eq)]
pub struct Config {
    /// For how many nanoseconds longer than asked a message is held.
    pub debounce: u64,
    /// How many objects are reconciled at a time; 0 is unbounded.
    pub concurrency: u16,
}

/// No debounce, and any number at a time.
impl Default for Config {
    fn default() -> Config
        ensures { result ≡ record { debounce = 0; concurrency = 0 } }
    {
        Config {
            debounce: 0,
            concurrency: 0,
        }
    }
}

impl Config {
    /// The same with this debounce, in nanoseconds.
    pub fn debounce(self, debounce: u64) -> Config
        ensures { result ≡ record self { debounce = debounce } }
    {
        Config { debounce, ..self }
    }

    /// The same with so many objects at a time; 0 is unbounded.
    pub fn concurrency(self, concurrency: u16) -> Config
        ensures { result ≡ record self { concurrency = concurrency } }
    {
        Config {
            concurrency,
            ..self
        }
    }
}
