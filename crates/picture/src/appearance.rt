ghost use Rattle.std.specs.Prelude.{◌≡◌, ◌+◌, ◌-◌, ◌^◌, ◌≤◌, ◌∷◌, List, ℕ, Option, min, true, false};
ghost use Rattle.picture.specs.Ever.{Appears, Showing};

use candump_line::Time;

/// How often something came that messages show or not, and from when to when it was shown.
#[derive(Clone, Copy, Debug, PartialEq, Eq)]
pub struct Appearance {
    /// How often it came: a message shows it, and the one before did not, or there was none before.
    pub times: u64,
    /// The time of the first message that shows it, where its line has one.
    pub first: Option<Time>,
    /// The time of the last message that shows it, where its line has one.
    pub last: Option<Time>,
    /// Whether the newest message shows it.
    pub on: bool,
}

impl Appearance {
    ghost use Rattle.std.specs.Prelude.{[]};

    /// It was not shown.
    pub(crate) fn never() -> Appearance
        ensures { Appears [] result }
    {
        Appearance {
            times: 0,
            first: None,
            last: None,
            on: false,
        }
    }

    /// A message came at this time, which shows it or not.
    pub(crate) fn hear(&mut self, shown: bool, time: &Option<Time>)
        ensures { (heard : List Showing) → Appears heard self.old → Appears (record { shows = shown; time = time.now } ∷ heard) self.new }
    {
        if shown {
            self.show(time);
        } else {
            self.hide();
        }
    }

    /// A message came at this time, which shows it.
    #[tactic(auto, using(crate::proofs::Appearing::shown_once_more))]
    fn show(&mut self, time: &Option<Time>)
        ensures { (heard : List Showing) → Appears heard self.old → Appears (record { shows = true; time = time.now } ∷ heard) self.new }
    {
        let first = self.first_with(time);
        let times = self.times_with();
        self.first = first;
        self.times = times;
        self.last = *time;
        self.on = true;
    }

    /// The time of the first that shows it, where one more does at this time.
    fn first_with(&self, time: &Option<Time>) -> Option<Time>
        ensures none { self.now.times ≡ 0 → result ≡ time.now }
        ensures some { 1 ≤ self.now.times → result ≡ self.now.first }
    {
        if self.times == 0 { *time } else { self.first }
    }

    /// How often it came, where one more shows it.
    fn times_with(&self) -> u64
        ensures on { self.now.on ≡ true → result ≡ self.now.times }
        ensures off { self.now.on ≡ false → result ≡ min (self.now.times + 1) (2 ^ 64 - 1) }
    {
        if self.on {
            self.times
        } else {
            self.times.saturating_add(1)
        }
    }

    /// A message came that does not show it.
    #[tactic(auto, using(crate::proofs::Appearing::not_shown))]
    fn hide(&mut self)
        ensures { (heard : List Showing) (time : Option ℕ) → Appears heard self.old → Appears (record { shows = false; time = time } ∷ heard) self.new }
    {
        self.on = false;
    }

    /// The newest message came once more, at this time.
    pub(crate) fn hear_again(&mut self, time: &Option<Time>)
        ensures { (heard : List Showing) → Appears heard self.old → Appears (record { shows = self.old.on; time = time.now } ∷ heard) self.new }
    {
        let shown = self.on;
        self.hear(shown, time);
    }
}
