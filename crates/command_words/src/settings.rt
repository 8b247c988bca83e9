//! The settings of a run: their words, and the limits that they leave.
ghost use Rattle.std.specs.Prelude.{◌≡◌, ℕ, ◌++◌, ◌∷◌, [], List, MatchOption, map, string_bytes};
ghost use Rattle.command_words.specs.declared.settings.Setting.{Setting};
ghost use Rattle.command_words.specs.Settings.{AreLimits, AreOnce, IsNumber, IsSetting, KeepsSettings, GiveLimits};

/// The most digits of a number among the words of a call.
pub const MOST_WORD_DIGITS: usize = 9;

/// The most workers.
pub const MOST_WORKERS: u32 = 64;

/// The greatest number of agents that may run, in all instants together.
pub const GREATEST_FUEL: u32 = 999_999_999;

/// How many agents may run where no fuel is set.
pub const DEFAULT_FUEL: u32 = 100_000_000;

/// The most leaves that an instant may have.
pub const GREATEST_NET: u32 = 65_536;

/// How many leaves an instant may have where no net is set.
pub const DEFAULT_NET: u32 = GREATEST_NET;

/// How much a run may do: the agents that may run in all its instants together, and the leaves of one instant.
#[derive(Clone, Copy, Debug, PartialEq, Eq)]
pub struct Limits {
    pub fuel: u32,
    pub net: u32,
}

/// What a flag and its number set.
#[derive(Clone, Copy, Debug, PartialEq, Eq)]
pub(crate) enum Setting {
    /// How many workers there are, 1 to `MOST_WORKERS`.
    Workers(u32),
    /// How many agents may run, in all instants together.
    Fuel(u32),
    /// How many leaves an instant may have, 1 to `GREATEST_NET`.
    Net(u32),
}

/// The numbers that are set so far.
#[derive(Clone, Copy, Debug, PartialEq, Eq)]
struct Settings {
    workers: Option<u32>,
    fuel: Option<u32>,
    net: Option<u32>,
}

impl Settings {
    /// These and one more, where none of its kind is set yet.
    fn with(self, setting: Setting) -> Option<Settings>
        ensures { (ss : List Setting) → KeepsSettings self ss → MatchOption result (AreOnce (ss ++ setting ∷ []) → ⊥) (λ more. KeepsSettings more (ss ++ setting ∷ [])) }
    {
        match setting {
            Setting::Workers(n) if self.workers.is_none() => Some(Settings {
                workers: Some(n),
                ..self
            }),
            Setting::Fuel(n) if self.fuel.is_none() => Some(Settings {
                fuel: Some(n),
                ..self
            }),
            Setting::Net(n) if self.net.is_none() => Some(Settings {
                net: Some(n),
                ..self
            }),
            _ => None,
        }
    }

    /// The limits, with the default number for each that is not set.
    fn limits(self) -> Limits
        ensures { (ss : List Setting) → KeepsSettings self ss → AreLimits ss result }
    {
        Limits {
            fuel: self.fuel.unwrap_or(DEFAULT_FUEL),
            net: self.net.unwrap_or(DEFAULT_NET),
        }
    }
}

/// The number that the word writes: one to `MOST_WORD_DIGITS` digits.
pub(crate) fn number_of(word: &str) -> Option<u32>
    ensures { MatchOption result ((n : ℕ) → IsNumber word.now n → ⊥) (IsNumber word.now) }
{
    if word.len() > MOST_WORD_DIGITS || word.starts_with('+') {
        return None;
    }
    word.parse().ok()
}

/// The setting that a flag and its number are.
pub(crate) fn setting_of(flag: &str, number: &str) -> Option<Setting>
    ensures { MatchOption result ((s : Setting) → IsSetting flag.now number.now s → ⊥) (IsSetting flag.now number.now) }
{
    match (flag, number_of(number)?) {
        ("--workers", n @ 1..=MOST_WORKERS) => Some(Setting::Workers(n)),
        ("--fuel", n) => Some(Setting::Fuel(n)),
        ("--net", n @ 1..=GREATEST_NET) => Some(Setting::Net(n)),
        _ => None,
    }
}

/// The limits that the words give, where they are settings, each kind once at most.
pub(crate) fn limits_of(words: &[String]) -> Option<Limits>
    ensures { MatchOption result ((limits : Limits) → GiveLimits (map string_bytes words.now) limits → ⊥) (GiveLimits (map string_bytes words.now)) }
{
    let mut settings = Settings {
        workers: None,
        fuel: None,
        net: None,
    };
    let mut rest = words;
    while let [flag, number, more @ ..] = rest {
        let setting = setting_of(flag.as_str(), number.as_str())?;
        settings = settings.with(setting)?;
        rest = more;
    }
    if rest.is_empty() {
        Some(settings.limits())
    } else {
        None
    }
}
