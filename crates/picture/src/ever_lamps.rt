ghost use Rattle.std.specs.Prelude.{◌≡◌, ◌∷◌, [], List};
ghost use Rattle.picture.specs.Ever.{LampsAppear, ToldMessage, told_at};
ghost use Rattle.picture.specs.EverInLogs.{may_have_come};
ghost use Rattle.picture.specs.Severities.{rank, worst_shown};
ghost use Rattle.trouble_code.specs.Code.{Code};

use crate::appearance::Appearance;
use crate::severity::Severity;
use candump_line::Time;
use trouble_code::{LampName, Lamps};

/// The state of a lamp that is on (SAE J1939-73, 5.7.1).
const ON: u8 = 1;

/// How often each lamp came on, and from when to when it was on.
#[derive(Clone, Copy)]
pub(crate) struct EverLamps {
    red: Appearance,
    amber: Appearance,
    malfunction: Appearance,
    protect: Appearance,
}

impl EverLamps {
    /// None was on.
    pub(crate) fn never() -> EverLamps
        ensures { LampsAppear [] result }
    {
        EverLamps {
            red: Appearance::never(),
            amber: Appearance::never(),
            malfunction: Appearance::never(),
            protect: Appearance::never(),
        }
    }

    /// How often a lamp came on, and from when to when it was on.
    pub(crate) fn of(&self, name: LampName) -> &Appearance {
        match name {
            LampName::RedStop => &self.red,
            LampName::Amber => &self.amber,
            LampName::Malfunction => &self.malfunction,
            LampName::Protect => &self.protect,
        }
    }

    /// The worst of the lamps that were on, and of whether there were codes.
    pub(crate) fn worst(&self, with_codes: bool) -> Severity
        ensures { rank result ≡ worst_shown (may_have_come self.now with_codes) }
    {
        if self.red.times > 0 {
            Severity::Red
        } else if self.amber.times > 0 {
            Severity::Amber
        } else if self.malfunction.times > 0 {
            Severity::Malfunction
        } else if self.protect.times > 0 {
            Severity::Protect
        } else if with_codes {
            Severity::Codes
        } else {
            Severity::Fine
        }
    }

    /// A message came at this time.
    pub(crate) fn hear(&mut self, lamps: Lamps, time: &Option<Time>)
        ensures { (told : List ToldMessage) (codes : List Code) → LampsAppear told self.old
            → LampsAppear (told_at lamps codes time.now ∷ told) self.new }
    {
        self.red.hear(lamps.lamp(LampName::RedStop) == ON, time);
        self.amber.hear(lamps.lamp(LampName::Amber) == ON, time);
        self.malfunction
            .hear(lamps.lamp(LampName::Malfunction) == ON, time);
        self.protect.hear(lamps.lamp(LampName::Protect) == ON, time);
    }

    /// The newest message came once more, at this time.
    pub(crate) fn hear_again(&mut self, time: &Option<Time>)
        ensures { (m : ToldMessage) (older : List ToldMessage) → LampsAppear (m ∷ older) self.old
            → LampsAppear (told_at m.lamps m.codes time.now ∷ m ∷ older) self.new }
    {
        self.red.hear_again(time);
        self.amber.hear_again(time);
        self.malfunction.hear_again(time);
        self.protect.hear_again(time);
    }
}
