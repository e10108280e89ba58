//! Changes that the operator or another server has made to matches.

use crate::servers::Server;
use bg_requests::is_name;
use std::io;

impl<'a> Server<'a> {
    /// Applies the operator's changes. A change that can't be applied keeps its mark, and is retried
    /// in the next second.
    pub(crate) fn take_changes(&mut self) {
        let Ok(names) = self.store().take_changes() else {
            return;
        };
        for name in names {
            if self.take_change(name.as_str()).is_ok() {
                self.changed = self.changed.saturating_add(1);
                let _ = self.taken.push(name);
            }
        }
    }

    /// Forgets the operator's changes that were applied, because they are saved now.
    pub(crate) fn forget_changes(&mut self) {
        for name in self.taken.iter() {
            self.store().forget_change(name.as_str());
        }
        self.taken.clear();
    }

    /// Applies the operator's changes to a match. If the match is new or gone, what a database has
    /// of it is discarded.
    fn take_change(&mut self, name: &str) -> io::Result<()> {
        match self.store().changed(name) {
            Ok(Some(changed)) => {
                if self.site.change(name, changed) {
                    return self.store().note_changed(name);
                }
                if is_name(name) {
                    self.store().note_new(name)?;
                    if let Some(why) = self.open(name)? {
                        why.tell(self.store().rt, name);
                    }
                }
                Ok(())
            }
            Ok(None) => {
                self.site.remove(name);
                self.store().note_gone(name)
            }
            Err(error) => Err(error),
        }
    }

    /// Reloads these matches, which other servers have changed, from the folder and the turn. One
    /// that can't be read is no longer served, because nobody knows which part of it is saved.
    pub(crate) fn renew_all(&mut self, names: &[String]) {
        for name in names.iter() {
            let name = name.as_str();
            let is_there = match self.store().find(name) {
                Ok(Some((found, None))) => self.site.replace(Box::into_inner(found)),
                _ => false,
            };
            if !is_there {
                self.site.remove(name);
            }
        }
    }
}
