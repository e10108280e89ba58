//! Clients that have become WebSockets: reading their messages, and sending what their peers lack.

use crate::clients::Client;
use crate::exchanges::{Transfer, transfer_of};
use crate::limits::{
    HELLO_SECONDS, MOST_READS, MOST_WRITES, PING_SECONDS, SILENT_SECONDS, STALL_SECONDS,
};
use bg_site::{Site, Step, Store};
use bg_world::Keeper;

impl Client {
    /// Reads messages and answers them.
    pub(crate) fn hear_channel<K: Keeper + Drop, S: Store<K> + Drop>(
        &mut self,
        site: &mut Site<K, S>,
        now: u64,
    ) -> Step {
        for _ in 0..MOST_READS {
            let Some(channel) = &mut self.channel else {
                return Step::Gone;
            };
            match channel.take_messages(site) {
                Step::Waits if channel.wants_read() => {}
                Step::Gone => {
                    self.is_leaving = true;
                    return Step::Gone;
                }
                _ => return Step::More,
            }
            match transfer_of(channel.read_from(&mut self.stream)) {
                Transfer::Bytes => self.heard = now,
                Transfer::Nothing => {}
                Transfer::Blocked => return Step::Waits,
                Transfer::Gone => return Step::Gone,
            }
        }
        Step::More
    }

    /// Sends queued output, and then what the peer lacks.
    pub(crate) fn tell_channel<K: Keeper + Drop, S: Store<K> + Drop>(
        &mut self,
        site: &mut Site<K, S>,
        now: u64,
    ) -> Step {
        match (self.send(site, now), self.state) {
            (Step::Gone, _) | (_, Step::Gone) => Step::Gone,
            (step, Step::Waits) => step,
            (Step::Waits, Step::More) if self.has_output() => Step::Waits,
            (_, Step::More) => Step::More,
        }
    }

    /// Returns whether output is queued for the WebSocket.
    fn has_output(&self) -> bool {
        match &self.channel {
            Some(channel) => channel.has_output(),
            None => false,
        }
    }

    /// Sends queued output, and then what the peer lacks, if the client is a WebSocket.
    pub(crate) fn send<K: Keeper + Drop, S: Store<K> + Drop>(
        &mut self,
        site: &mut Site<K, S>,
        now: u64,
    ) -> Step {
        let Some(channel) = &mut self.channel else {
            return Step::Waits;
        };
        for _ in 0..MOST_WRITES {
            if !channel.has_output() {
                self.sent = now;
                match channel.pull(site) {
                    Step::More => {}
                    step => return step,
                }
            }
            match transfer_of(channel.write_to(&mut self.stream)) {
                Transfer::Bytes => self.sent = now,
                Transfer::Nothing => {}
                Transfer::Blocked => return Step::Waits,
                Transfer::Gone => return Step::Gone,
            }
        }
        Step::More
    }

    /// Returns whether the client may stay connected. If output is queued, tries to send it.
    pub(crate) fn may_stay<K: Keeper + Drop, S: Store<K> + Drop>(
        &mut self,
        site: &mut Site<K, S>,
        now: u64,
    ) -> bool {
        self.may_be_silent(now)
            && (!self.has_output()
                || now.saturating_sub(self.sent) <= STALL_SECONDS
                    && self.send(site, now) != Step::Gone)
    }

    /// Returns whether the client is within its time limits for silence. A silent peer is pinged.
    fn may_be_silent(&mut self, now: u64) -> bool {
        let most_seconds = self.most_seconds();
        let Some(channel) = &mut self.channel else {
            return now.saturating_sub(self.since) <= most_seconds;
        };
        let silent = now.saturating_sub(self.heard);
        if silent > SILENT_SECONDS
            || !channel.peer().is_known() && now.saturating_sub(self.since) > HELLO_SECONDS
        {
            return false;
        }
        if silent >= PING_SECONDS && now.saturating_sub(self.asked) >= PING_SECONDS {
            self.asked = now;
            return channel.ask();
        }
        true
    }
}
