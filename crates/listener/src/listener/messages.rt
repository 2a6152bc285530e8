ghost use Rattle.std.specs.Prelude.{◌≡◌, ◌≤◌, ◌+◌, Some, IfOk, OnOk, OnErr};
ghost use Rattle.bus_model.specs.OverheardChanged.{announcement_change, sent_change};
ghost use Rattle.bus_model.specs.Heard.{counted};
ghost use Rattle.bus_model.specs.Heard as heard;
ghost use Rattle.parameter_group.specs.Group as group;
ghost use Rattle.reassembly.specs.Pairs.{pair_at};
ghost use Rattle.reassembly.specs.Partials.{answer_to};
ghost use Rattle.reassembly.specs.Tables.{at};
ghost use Rattle.listener.specs.SentEntries.{HasTaken};

use crate::ended::{ReadSending, ended_with, read_of};
use crate::entry::SentEntry;
use crate::listener::Listener;
use crate::lists::SentLists;
use crate::sending::Sending;
use bus_model::Overheard;
use can_frame::{GLOBAL_ADDRESS, Pgn};
use dm_messages::{Kind, MessageRead};
use entry_lists::kind_of;
use std::alloc::{AllocError, Global};
use transport::Took;

impl Listener {
    ghost use Rattle.listener.specs.ListenerSteps.{after_announcing, after_ended, after_packet_between, ended_told, group_taken, group_told, whole_with, without_session_between};
    ghost use Rattle.listener.specs.SentEntries.{entry_ended, entry_if_sent, group_listed};

    /// What is read of a message that ended goes to the lists as an entry of its unit. What is not read whole counts as unread.
    fn keep<L: SentLists>(
        &mut self,
        alloc: Global,
        source: u8,
        to: u8,
        ended: Option<ReadSending>,
        lists: &mut L,
    ) -> Result<Overheard, AllocError>
        ensures ok { OnOk result (self.new ≡ after_ended self.old ended) }
        ensures change { IfOk result (λ c. c ≡ ended_told source to ended) }
        ensures lists { OnOk result (HasTaken L.Takes lists.old (entry_ended source to ended) lists.new) }
        ensures err { OnErr result (self.new ≡ self.old) }
        ensures err_lists { OnErr result (lists.new ≡ lists.old) }
    {
        let Some(ReadSending { sending, read, why }) = ended else {
            return Ok(Overheard::Nothing);
        };
        match read {
            Some(MessageRead::Whole(shown)) => {
                let entry = SentEntry {
                    who: sending.who(),
                    kind: sending.kind(),
                    source,
                    to,
                    read: MessageRead::Whole(shown),
                };
                lists.put(alloc, entry)?;
                Ok(Overheard::Listed {
                    who: sending.who(),
                    kind: sending.kind(),
                    source,
                    to,
                })
            }
            Some(MessageRead::InPart(part)) => {
                let entry = SentEntry {
                    who: sending.who(),
                    kind: sending.kind(),
                    source,
                    to,
                    read: MessageRead::InPart(part),
                };
                lists.put(alloc, entry)?;
                self.count_unread();
                Ok(Overheard::ListedInPart {
                    who: sending.who(),
                    kind: sending.kind(),
                    source,
                    to,
                })
            }
            None => {
                self.count_unread();
                Ok(Overheard::Unreadable {
                    who: sending.who(),
                    kind: sending.kind(),
                    source,
                    to,
                    why,
                })
            }
        }
    }

    fn count_unread(&mut self)
        ensures { self.new ≡ record self.old { unread = counted (self.old.unread + 1) } }
    {
        self.unread = self.unread.saturating_add(1);
    }

    /// A diagnostic message in one frame, which goes to all.
    pub(super) fn hear_single<L: SentLists>(
        &mut self,
        alloc: Global,
        kind: Kind,
        source: u8,
        bytes: &[u8],
        lists: &mut L,
    ) -> Result<Overheard, AllocError>
        ensures ok { OnOk result (self.new ≡ group_taken self.old (group.Diagnostic kind source bytes.now)) }
        ensures change { IfOk result (λ c. c ≡ group_told self.old (group.Diagnostic kind source bytes.now)) }
        ensures lists { OnOk result
            (HasTaken L.Takes lists.old (group_listed self.old (group.Diagnostic kind source bytes.now)) lists.new) }
        ensures err { OnErr result (self.new ≡ self.old) }
        ensures err_lists { OnErr result (lists.new ≡ lists.old) }
    {
        let (read, why) = read_of(alloc, bytes)?;
        let ended = ReadSending {
            sending: Sending::new(self.who(source), kind),
            read,
            why,
        };
        self.keep(alloc, source, GLOBAL_ADDRESS, Some(ended), lists)
    }

    /// A message is announced from a source to a destination: what is half sent between them is dropped, and a diagnostic one
    /// starts.
    pub(super) fn announce(
        &mut self,
        alloc: Global,
        source: u8,
        dest: u8,
        size: u16,
        pgn: Pgn,
    ) -> Result<(), AllocError>
        requires least { 9 ≤ size }
        requires most { size ≤ 1785 }
        ensures ok { OnOk result (self.new ≡ after_announcing self.old source dest size pgn) }
        ensures err { OnErr result (self.new ≡ self.old) }
    {
        match kind_of(pgn) {
            Some(kind) => {
                let sending = Sending::new(self.who(source), kind);
                self.pairs.start(alloc, source, dest, sending, size, pgn)?;
            }
            None => self.pairs.forget(source, dest),
        }
        Ok(())
    }

    /// What the announcement of a broadcast changes: nothing, but that a diagnostic message begins at an address without an owner.
    pub(super) fn announcement(&self, source: u8, pgn: Pgn) -> Overheard
        ensures { result ≡ announcement_change (heard.kind_of pgn) source (at self.now.owners source) }
    {
        match (kind_of(pgn), self.owner(source)) {
            (Some(kind), None) => Overheard::Unowned { kind, source },
            _ => Overheard::Nothing,
        }
    }

    /// An abort by either of two addresses: the sessions between them end, whatever group it names. A message to all does not.
    pub(super) fn hear_abort(&mut self, source: u8, dest: u8)
        ensures { self.new ≡ record self.old
            { pairs = without_session_between dest source (without_session_between source dest self.old.pairs) } }
    {
        if dest != GLOBAL_ADDRESS {
            self.pairs.forget(source, dest);
        }
        if source != GLOBAL_ADDRESS {
            self.pairs.forget(dest, source);
        }
    }

    /// A packet from a source to a destination, of what is half sent between them.
    #[tactic(auto, using(crate::proofs::Places::nothing_between))]
    pub(super) fn hear_packet<L: SentLists>(
        &mut self,
        alloc: Global,
        source: u8,
        dest: u8,
        bytes: &[u8],
        lists: &mut L,
    ) -> Result<Overheard, AllocError>
        ensures ok { OnOk result (self.new ≡ after_packet_between self.old source dest bytes.now) }
        ensures change { IfOk result (λ c. c ≡ sent_change source (whole_with self.old source dest bytes.now)) }
        ensures lists { OnOk result
            (HasTaken L.Takes lists.old (entry_if_sent source (whole_with self.old source dest bytes.now)) lists.new) }
        ensures err { OnErr result (self.new ≡ self.old) }
        ensures err_lists { OnErr result (lists.new ≡ lists.old) }
    {
        let Some(took) = self.pairs.answer(source, dest, bytes) else {
            return Ok(Overheard::Nothing);
        };
        match took {
            Took::Whole => self.end_message(alloc, source, dest, bytes, lists),
            Took::More | Took::Broken => {
                self.pairs.take(source, dest, bytes, took);
                Ok(Overheard::Nothing)
            }
        }
    }

    /// The last packet of a message.
    fn end_message<L: SentLists>(
        &mut self,
        alloc: Global,
        source: u8,
        dest: u8,
        bytes: &[u8],
        lists: &mut L,
    ) -> Result<Overheard, AllocError>
        requires whole { answer_to bytes.now (pair_at self.old.pairs source dest) ≡ Some Took.Whole }
        ensures ok { OnOk result (self.new ≡ after_packet_between self.old source dest bytes.now) }
        ensures change { IfOk result (λ c. c ≡ sent_change source (whole_with self.old source dest bytes.now)) }
        ensures lists { OnOk result
            (HasTaken L.Takes lists.old (entry_if_sent source (whole_with self.old source dest bytes.now)) lists.new) }
        ensures err { OnErr result (self.new ≡ self.old) }
        ensures err_lists { OnErr result (lists.new ≡ lists.old) }
    {
        let ended = ended_with(alloc, &mut self.pairs, source, dest, bytes)?;
        let change = self.keep(alloc, source, dest, ended, lists)?;
        self.pairs.take(source, dest, bytes, Took::Whole);
        Ok(change)
    }
}
