//! A store of files in memory that fails at the calls that it is told to.
ghost use Rattle.std.specs.Prelude.{◌≡◌, ◌<◌, ◌≤◌, ◌↔◌, [], ◌∷◌, length, Some, None, MatchOption, option_map, position, if◌then◌else◌, IsTrue, IsSome, IsErr, is_ok, IfOk, OnOk};
ghost use Rattle.std.specs.Str.{bytes_eq};
ghost use Rattle.std.specs.Io.{ReadsAtMost};
ghost use Rattle.std.specs.Io.KnownBytes.{ReadConsumes};
ghost use Rattle.cast_io.specs.Causes.{HasCause, next_count};
ghost use Rattle.cast_io.specs.Fakes.{IsFakeRead};
ghost use Rattle.cast_io.specs.Stores.{HasOpened, content_of};
ghost use Rattle.cast_io.specs.FakeStores.{store_told, content_at, open_file, open_is_refused};

use crate::bytes::ByteString;
use crate::calls::{copy_from, is_told};
use crate::fault::Failed;
use crate::notes::Notes;
use crate::source::Source;
use crate::store::Store;
use std::alloc::{AllocError, Global};
use std::marker::Model;

/// A store of files in memory.
#[derive(Drop)]
pub struct MemStore {
    alloc: Global,
    files: Vec<(ByteString, ByteString)>,
    opened: Option<usize>,
    place: usize,
    asked: Notes<ByteString>,
    fails: Vec<u64>,
    calls: u64,
    reads: u64,
    faults: u64,
}

impl Model for MemStore {
    ghost use Rattle.std.specs.Prelude.{◌≤◌, length, drop};
    ghost use Rattle.cast_io.specs.FakeStores.{StoreState, content_at};

    ghost Value = { StoreState };

    ghost view = { λ s. record {
      files = s.files.items;
      left = drop s.place (content_at s.files.items s.opened);
      asked = s.asked;
      fails = s.fails.items;
      calls = s.calls;
      reads = s.reads;
      faults = s.faults;
    } };

    ghost invariant = { λ s. s.place ≤ length (content_at s.files.items s.opened) };
}

impl MemStore {
    ghost use Rattle.cast_io.specs.FakeStores.{IsStoreOf};
    ghost use Rattle.cast_io.specs.Told.{Grew};
    ghost use Rattle.std.specs.Prelude.{List, ℕ};

    /// A store of these files, pairs of path and content, of which the first of a path counts.
    /// `fails` lists which calls fail, by their numbers from 1 over `open` and `read` alike.
    pub fn new(alloc: Global, files: Vec<(ByteString, ByteString)>, fails: Vec<u64>) -> Self
        ensures made { IsStoreOf result files.items fails.items }
    {
        MemStore {
            alloc,
            files,
            opened: None,
            place: 0,
            asked: Notes::new(alloc),
            fails,
            calls: 0,
            reads: 0,
            faults: 0,
        }
    }

    /// The path of each `open`, of refused ones too, while there was memory for them.
    pub fn asked(&self) -> Option<&[ByteString]>
        ensures { option_map (λ asked. asked.now) result ≡ self.now.asked }
    {
        self.asked.items()
    }

    // Adds a path to those asked for. Where there was no memory for it, that is a fault.
    fn note(&mut self, path: Result<ByteString, AllocError>)
        ensures grew { (wanted : List ℕ) → IfOk path (λ p. p ≡ wanted)
            → Grew self.old.asked self.new.asked (wanted ∷ []) }
        ensures kept { IsSome self.new.asked → self.new.faults ≡ self.old.faults }
        ensures later { self.old.faults ≤ self.new.faults }
        ensures same { self.new ≡
            record self.old { asked = self.new.asked; faults = self.new.faults } }
    {
        let Ok(path) = path else {
            self.asked.lose();
            self.faults = self.faults.saturating_add(1);
            return;
        };
        let Ok(()) = self.asked.add(path) else {
            self.faults = self.faults.saturating_add(1);
            return;
        };
    }

    // Opens the file of this path, where there is one and the call is not to fail.
    fn turn_to(&mut self, path: &[u8]) -> Result<(), Failed>
        ensures ok { OnOk result (content_of self.old.files path.now ≡ Some self.new.left) }
        ensures exact { IsErr result ↔ IsTrue (open_is_refused self.old path.now) }
        ensures same { self.new ≡ record self.old {
          left = self.new.left;
          calls = next_count self.old.calls;
          faults = self.new.faults;
        } }
        ensures none { IsErr result → self.new.left ≡ [] }
        ensures cause { HasCause self.old.faults self.new.faults result }
        ensures unharmed { OnOk result (self.new.faults ≡ self.old.faults) }
        ensures harmed { IsErr result → self.new.faults ≡ next_count self.old.faults }
    {
        self.opened = None;
        self.place = 0;
        self.calls = self.calls.saturating_add(1);
        if is_told(&self.fails, self.calls) {
            self.faults = self.faults.saturating_add(1);
            return Err(Failed);
        }
        let Some(place) = file_of(&self.files, path) else {
            self.faults = self.faults.saturating_add(1);
            return Err(Failed);
        };
        self.opened = Some(place);
        Ok(())
    }
}

impl Source for MemStore {
    ghost left = { λ s. Some s.left };

    ghost faults = { λ s. s.faults };

    ghost reads = { λ s. s.reads };

    ghost store = { store_told };

    fn read(&mut self, buf: &mut [u8]) -> Result<usize, Failed>
        requires { 0 < length buf.old }
        ensures bound { ReadsAtMost result buf.new }
        ensures bytes { ReadConsumes (Some self.old.left) (Some self.new.left) result buf.new }
        ensures cause { HasCause self.old.faults self.new.faults result }
        ensures counted { self.new.reads ≡ next_count self.old.reads }
        ensures kept { store_told self.new ≡ store_told self.old }
        ensures fake { IsFakeRead (open_file self.old) (open_file self.new) (length buf.old)
            result }
    {
        self.calls = self.calls.saturating_add(1);
        self.reads = self.reads.saturating_add(1);
        if is_told(&self.fails, self.calls) {
            self.faults = self.faults.saturating_add(1);
            return Err(Failed);
        }
        let count = copy_from(content(&self.files, self.opened), self.place, buf);
        self.place += count;
        Ok(count)
    }
}

impl Store for MemStore {
    ghost use Rattle.cast_io.specs.FakeStores.{IsOpenOf, open_is_refused};
    ghost use Rattle.cast_io.specs.FakeStreets.{faults_by};

    fn open(&mut self, path: &str) -> Result<(), Failed>
        ensures opened { HasOpened path.now (store_told self.old) (store_told self.new)
            (Some self.new.left) result }
        ensures cause { HasCause self.old.faults self.new.faults result }
        ensures reads { self.new.reads ≡ self.old.reads }
        ensures exact { IsErr result ↔ IsTrue (open_is_refused self.old path.now) }
        ensures unharmed { IsSome self.new.asked
            → self.new.faults ≡ faults_by (is_ok result) self.old.faults }
        ensures same { IsOpenOf self.old self.new }
    {
        self.note(ByteString::copy_of(self.alloc, path.as_bytes()));
        self.turn_to(path.as_bytes())
    }
}

// The place of the first file of this path.
fn place_of(files: &[(ByteString, ByteString)], path: &[u8]) -> Option<usize>
    ensures { result ≡ position (λ file. bytes_eq file.0 path.now) files.now }
{
    files.iter().position(|file| file.0.as_slice() == path)
}

// The place of the first file of this path, where its content stands.
fn file_of(files: &[(ByteString, ByteString)], path: &[u8]) -> Option<usize>
    ensures { MatchOption result (content_of files.now path.now ≡ None)
        (λ place. content_of files.now path.now ≡ Some (content_at files.now (Some place))) }
{
    place_of(files, path)
}

// What the open file holds; nothing where none is open.
fn content(files: &[(ByteString, ByteString)], opened: Option<usize>) -> &[u8]
    ensures { result.now ≡ content_at files.now opened }
{
    let Some(place) = opened else {
        return &[];
    };
    match files.get(place) {
        Some(file) => file.1.as_slice(),
        None => &[],
    }
}
