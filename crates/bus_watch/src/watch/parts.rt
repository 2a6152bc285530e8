ghost use Rattle.std.specs.Prelude.{◌≡◌, ◌≤◌, List};
ghost use Rattle.bus_watch.specs.Told.{Beginning, StandsForAll, Told, all_said};
ghost use Rattle.bus_watch.specs.WatchValue.{half_from_source, half_in_all, partly_heard, unreadable_by};

use crate::watch::Watch;

impl Watch {
    /// How many messages were read in part, also before it started over, up to the greatest 64-bit number.
    #[tactic(auto, using(crate::proofs::Queries::partly_as_heard))]
    pub fn partly_in_all(&self) -> u64
        ensures value { result ≡ self.now.partly }
        ensures heard { (b : Beginning) (ts : List Told) → StandsForAll b ts self.entry.now
            → result ≡ partly_heard b.partly (all_said b ts).moments }
    {
        self.counts.partly
    }

    /// How many messages could not be read at all, since not even their lamps were whole.
    pub fn unreadable_in_all(&self) -> u64
        ensures { result ≡ unreadable_by self.now }
    {
        self.unread_in_all().saturating_sub(self.counts.partly)
    }

    /// How many messages are half joined now.
    pub fn half_joined(&self) -> u64
        ensures { result ≡ half_in_all self.entry.now }
    {
        let mut count = 0u64;
        for source in 0..256u16 {
            count += self.half_joined_from(source as u8);
        }
        count
    }

    /// How many are half joined from this source.
    fn half_joined_from(&self, source: u8) -> u64
        ensures count { result ≡ half_from_source self.entry.now source }
        ensures most { result ≤ 256 }
    {
        let mut count = 0u64;
        for dest in 0..256u16 {
            if self.ear.half_sent(source, dest as u8).is_some() {
                count += 1;
            }
        }
        count
    }
}
