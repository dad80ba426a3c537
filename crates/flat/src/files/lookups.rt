// The files by number and by key.
ghost use Rattle.std.specs.Prelude.{◌≡◌, ◌<◌, ◌≤◌, map, IfSome, MatchOption};
ghost use Rattle.slots.specs.Told.{forgot};
ghost use Rattle.slots.specs.Views.{seen};
ghost use Rattle.flat.specs.Places.{meaning_of, file_of, key_in};
ghost use Rattle.flat.specs.Steps.{first_bound, first_free};
ghost use Rattle.flat.specs.Found.{HeldAt};

use super::Files;
use faults::DiskFault;
use keys::Key;
use slots::FileView;
use slots::codes::NOT_HELD;
use table::{Tells, position};

impl Files {
    // The place of a number.
    #[tactic(auto, using(crate::specs::RowsLemmas::placed))]
    fn find(&self, number: u64) -> Option<usize>
        ensures { MatchOption result (8 ≤ number) (λ i. (i ≡ number) × (i < 8)) }
    {
        position(&self.slots, &number)
    }

    #[tactic(auto, using(crate::specs::Distinct::small, crate::specs::RowsLemmas::view_found))]
    pub(crate) fn view(&self, number: u64) -> Option<FileView<'_>>
        ensures { seen (key_in (meaning_of self.now.slots number)) result ≡ meaning_of self.now.slots number }
    {
        let i = self.find(number)?;
        let file = &self.slots[i].file;
        file.is_there().then(|| file.view())
    }

    #[tactic(auto, using(crate::specs::Distinct::small, crate::specs::RowsLemmas::key_found))]
    pub(crate) fn key(&self, number: u64) -> Option<Key>
        ensures { result ≡ key_in (meaning_of self.now.slots number) }
    {
        let i = self.find(number)?;
        self.slots[i].file.key()
    }

    // The place of a file that is held.
    #[tactic(auto, using(crate::specs::Distinct::small, crate::specs::RowsLemmas::held_found, crate::specs::RowsLemmas::unheld_found))]
    pub(crate) fn held(&self, file: u64) -> Result<usize, DiskFault>
        ensures { HeldAt (meaning_of self.now.slots) file result }
    {
        match self.find(file) {
            Some(i) if self.slots[i].file.is_held() => Ok(i),
            _ => Err(NOT_HELD),
        }
    }

    // The first place of a key that is told.
    pub(crate) fn bound<T: Tells<Key>>(&self, by: &T) -> Option<usize>
        ensures value { result ≡ first_bound (T.told by.now) (meaning_of self.now.slots) }
        ensures within { IfSome result (λ i. i < 8) }
    {
        self.slots.iter().position(|place| place.file.is_told(by))
    }

    // The first place where no file is.
    pub(crate) fn free(&self) -> Option<usize>
        ensures value { result ≡ first_free (meaning_of self.now.slots) }
        ensures within { IfSome result (λ i. i < 8) }
    {
        self.slots.iter().position(|place| !place.file.is_there())
    }

    // Takes every key that is told.
    pub(crate) fn forget<T: Tells<Key>>(&mut self, going: &T)
        ensures { map file_of self.new.slots ≡ map (forgot (T.told going.now)) (map file_of self.old.slots) }
    {
        for place in self.slots.iter_mut() {
            place.file.forget(going);
        }
    }
}
