//! Named files in memory, which can be made to fail.
ghost use Rattle.std.specs.Prelude.{◌≡◌, ◌+◌, ◌-◌, ◌<◌, ◌≤◌, ◌⊎◌, ◌↔◌, ℕ, List, [], ◌++◌, true, Some, None, length, take, drop, map, min, option_map, IsTrue, IsSome, IsOk, IfOk, OnOk, OnErr, MatchResult, MatchBool, string_bytes};
ghost use Rattle.std.specs.List.{position_or_len};
ghost use Rattle.std.specs.Io.{ReadsAtMost};
ghost use Rattle.outer_io.specs.Faults.{HasCause, TellsFault};
ghost use Rattle.outer_io.specs.KnownText.{Wrote, StopsIn};
ghost use Rattle.std.specs.Io.KnownBytes.{append_known};
ghost use Rattle.outer_io.specs.NamedFiles.{SameFiles, SameOthers, TakesFront};
ghost use Rattle.outer_io.specs.Bounded.{counted, IsToFail};
ghost use Rattle.outer_io.specs.Memory.{is_named, file_in, content_in, HasRoom, SameLabels};
ghost use Rattle.outer_io.specs.MemoryTold.{kept_part, files_kept, files_calls, files_tell, files_content, files_faults, files_fault_at, files_chosen, files_left, files_begun};

use crate::bounded::{BoundedBytes, CallCount, FaultCount, StoredName, no_calls};
use crate::fault::{Failed, Purpose};
use crate::files::{Files, NAME_LIMIT};
use std::alloc::{AllocError, Global};
use std::marker::Model;

/// A file to be kept in memory: its name, what it holds (`None`: it is not there), and how many bytes it may hold. The room
/// bounds what is added; bytes that a file holds from the start may be more.
#[derive(Drop)]
pub struct MemoryPart {
    pub name: String,
    pub bytes: Option<Vec<u8>>,
    pub room: u64,
}

/// A file that is kept in memory.
#[derive(Drop)]
pub(crate) struct MemoryFile {
    name: String,
    exists: bool,
    held: BoundedBytes,
}

impl Model for MemoryFile {
    ghost use Rattle.std.specs.Prelude.{Some, None, if◌then◌else◌, string_bytes};
    ghost use Rattle.outer_io.specs.Memory.{Kept};

    ghost Value = { Kept };

    ghost view = { λ f. record {
      name = string_bytes f.name;
      bytes = if f.exists then Some f.held.bytes else None;
      room = f.held.limit;
    } };
}

impl MemoryFile {
    fn new(alloc: Global, part: MemoryPart) -> Result<MemoryFile, AllocError>
        ensures { IfOk result
            (λ made. made ≡ record {
              name = string_bytes part.name;
              bytes = option_map (λ bytes. bytes.items)
                  part.bytes;
              room = part.room;
            }) }
    {
        let MemoryPart { name, bytes, room } = part;
        let exists = bytes.is_some();
        let bytes = match bytes {
            Some(bytes) => bytes,
            None => Vec::new(alloc),
        };
        let held = BoundedBytes::new(bytes, room)?;
        Ok(MemoryFile { name, exists, held })
    }

    fn has_name(&self, name: &[u8]) -> bool
        ensures { result ≡ is_named name.now self.now }
    {
        self.name.as_bytes() == name
    }

    fn content(&self) -> Option<&[u8]>
        ensures { option_map (λ bytes. bytes.now) result ≡ self.now.bytes }
    {
        if self.exists {
            Some(self.held.as_slice())
        } else {
            None
        }
    }

    /// Makes it where it is not there, and empties it.
    fn empty(&mut self)
        ensures { self.new ≡ record self.old { bytes = Some [] } }
    {
        self.exists = true;
        self.held.clear();
    }

    /// Appends what there is room for where it is there, and says whether that is the whole piece.
    fn append(&mut self, piece: &[u8]) -> bool
        ensures fits { IsTrue result ↔ HasRoom (Some self.old) piece.now }
        ensures after { self.new ≡ record self.old {
          bytes = option_map
              (λ bytes. bytes ++ take (self.old.room - length bytes) piece.now) self.old.bytes;
        } }
    {
        self.exists && self.held.append(piece)
    }
}

/// The place of the first file of a name, or how many files there are.
fn place_of(files: &[MemoryFile], name: &[u8]) -> usize
    ensures { result ≡ position_or_len (is_named name.now) files.now }
{
    for place in 0..files.len() {
        if files[place].has_name(name) {
            return place;
        }
    }
    files.len()
}

/// What the file of a name holds.
fn content_of<'a>(files: &'a [MemoryFile], name: &[u8]) -> Option<&'a [u8]>
    ensures { option_map (λ bytes. bytes.now) result ≡ content_in files.now name.now }
{
    let place = place_of(files, name);
    if place < files.len() {
        files[place].content()
    } else {
        None
    }
}

/// Empties the file of a name, and says whether one has it.
fn empty_file(files: &mut [MemoryFile], name: &[u8]) -> bool
    ensures found { IsTrue result ↔ IsSome (file_in files.old name.now) }
    ensures empty { IsTrue result → content_in files.new name.now ≡ Some [] }
    ensures unchanged { IsTrue result ⊎ (files.new ≡ files.old) }
    ensures others { SameOthers name.now (content_in files.old) (content_in files.new) }
    ensures labels { SameLabels files.old files.new }
{
    let place = place_of(files, name);
    if place >= files.len() {
        return false;
    }
    files[place].empty();
    true
}

/// Appends to the file of a name what there is room for, and says whether that is the whole piece.
fn append_to(files: &mut [MemoryFile], name: &[u8], piece: &[u8]) -> bool
    ensures fits { IsTrue result ↔ HasRoom (file_in files.old name.now) piece.now }
    ensures text { MatchBool result
        (content_in files.new name.now ≡ append_known (content_in files.old name.now) piece.now)
        (StopsIn true (content_in files.old name.now) (content_in files.new name.now) piece.now) }
    ensures others { SameOthers name.now (content_in files.old) (content_in files.new) }
    ensures labels { SameLabels files.old files.new }
{
    let place = place_of(files, name);
    place < files.len() && files[place].append(piece)
}

/// Copies what stands from a place on, as much as fits, and says how much.
fn copy_from(bytes: &[u8], from: usize, buffer: &mut [u8]) -> usize
    requires { from ≤ length bytes.now }
    ensures count { result ≡ min (length (drop from bytes.now)) (length buffer.new) }
    ensures copied { take result buffer.new ≡ take result (drop from bytes.now) }
{
    let count = (bytes.len() - from).min(buffer.len());
    buffer[..count].copy_from_slice(&bytes[from..from + count]);
    count
}

/// Files that keep all in memory, which they take when they are made, and tell all.
///
/// A call fails where its number, counted from 1 over the calls of all four kinds, is one of those that are to fail: it then
/// changes no file. `start` also fails at a file that is not there, `begin` at a name that no part has, and `add` where the
/// piece has no room: then what there is room for is appended. Of parts of one name the first counts.
pub struct MemoryFiles {
    files: Vec<MemoryFile>,
    calls: CallCount,
    fault: FaultCount,
    read_at: Option<usize>,
    read_name: StoredName,
    is_begun: bool,
    write_name: StoredName,
}

impl Drop for MemoryFiles {
    /// In one call, for whoever lets one go.
    fn drop(self) {
        let MemoryFiles {
            files: _,
            calls: _,
            fault: _,
            read_at: _,
            read_name: _,
            is_begun: _,
            write_name: _,
        } = self;
    }
}

impl MemoryFiles {
    /// The files of the parts, and the numbers of the calls that are to fail.
    pub fn new(
        alloc: Global,
        parts: Vec<MemoryPart>,
        failing: Vec<u64>,
    ) -> Result<MemoryFiles, AllocError>
        ensures parts { IfOk result (λ files. files_kept files ≡ map kept_part parts.items) }
        ensures failing { IfOk result
            (λ files. files_calls files ≡ record { made = 0; failing = failing.items }) }
        ensures no_fault { IfOk result (λ files. files_faults files ≡ 0) }
    {
        let files = files_of(alloc, parts)?;
        let (fault, read_name, write_name) = no_calls(alloc)?;
        Ok(MemoryFiles {
            files,
            calls: CallCount::new(failing),
            fault,
            read_at: None,
            read_name,
            is_begun: false,
            write_name,
        })
    }

    /// What the file of a name holds, where it is there.
    pub fn content(&self, name: &str) -> Option<&[u8]>
        ensures { option_map (λ bytes. bytes.now) result ≡ files_content self.now name.now }
    {
        content_of(&self.files, name.as_bytes())
    }
}

/// The files of the parts, in order.
fn files_of(alloc: Global, parts: Vec<MemoryPart>) -> Result<Vec<MemoryFile>, AllocError>
    ensures { IfOk result (λ files. files.items ≡ map kept_part parts.items) }
{
    let mut files = Vec::new(alloc);
    for part in parts {
        files.push(MemoryFile::new(alloc, part)?)?;
    }
    Ok(files)
}

impl Files for MemoryFiles {
    ghost use Rattle.outer_io.specs.MemoryTold.{files_tell, files_content, files_faults, files_fault_at, files_chosen, files_left, files_begun};

    ghost tells = { files_tell };

    ghost content = { files_content };

    ghost faults = { files_faults };

    ghost fault_at = { files_fault_at };

    ghost chosen = { files_chosen };

    ghost left = { files_left };

    ghost begun = { files_begun };

    fn start(&mut self, name: &str) -> Result<(), Failed>
        requires { length name.now ≤ NAME_LIMIT }
        ensures chosen { MatchResult result (λ _. files_chosen self.new ≡ Some name.now)
            (λ _. files_chosen self.new ≡ None) }
        ensures left { OnOk result (files_left self.new ≡ files_content self.old name.now) }
        ensures there { OnOk result
            (IsTrue (files_tell self.old) → IsSome (files_content self.old name.now)) }

        ensures cause { HasCause (files_faults self.old) (files_faults self.new) result }
        ensures fault_at { TellsFault (name.now, Purpose.Reading) (files_fault_at self.old)
            (files_fault_at self.new) result }

        ensures same { SameFiles (files_content self.old) (files_content self.new) }
        ensures tells { files_tell self.new ≡ files_tell self.old }
        ensures begun { files_begun self.new ≡ files_begun self.old }

        ensures succeeds { IsOk result
            ↔ (¬ IsToFail (files_calls self.old) × IsSome (files_content self.old name.now)) }
        ensures counted { files_calls self.new ≡ counted (files_calls self.old) }
        ensures labels { SameLabels (files_kept self.old) (files_kept self.new) }
        ensures nothing { IsToFail (files_calls self.old)
            → files_kept self.new ≡ files_kept self.old }
    {
        self.read_at = None;
        if self.calls.count() {
            self.fault.raise(name.as_bytes(), Purpose::Reading);
            return Err(Failed);
        }
        if content_of(&self.files, name.as_bytes()).is_none() {
            self.fault.raise(name.as_bytes(), Purpose::Reading);
            return Err(Failed);
        }
        self.read_at = Some(0);
        self.read_name.set(name.as_bytes());
        Ok(())
    }

    fn next(&mut self, buffer: &mut [u8]) -> Result<usize, Failed>
        requires { IsSome (files_chosen self.old) }
        ensures bound { ReadsAtMost result buffer.new }
        ensures bytes { TakesFront (files_left self.old) (files_left self.new) result buffer.new }
        ensures chosen { files_chosen self.new ≡ files_chosen self.old }

        ensures cause { HasCause (files_faults self.old) (files_faults self.new) result }
        ensures fault_at { (file : List ℕ) → files_chosen self.old ≡ Some file
            → TellsFault (file, Purpose.Reading) (files_fault_at self.old) (files_fault_at self.new)
            result }

        ensures same { SameFiles (files_content self.old) (files_content self.new) }
        ensures tells { files_tell self.new ≡ files_tell self.old }
        ensures begun { files_begun self.new ≡ files_begun self.old }

        ensures succeeds { IsOk result
            ↔ (¬ IsToFail (files_calls self.old) × IsSome (files_left self.old)) }
        ensures counted { files_calls self.new ≡ counted (files_calls self.old) }
        ensures labels { SameLabels (files_kept self.old) (files_kept self.new) }
        ensures nothing { IsToFail (files_calls self.old)
            → files_kept self.new ≡ files_kept self.old }
    {
        let name = self.read_name.as_bytes();
        if self.calls.count() {
            self.fault.raise(name, Purpose::Reading);
            return Err(Failed);
        }
        let Some(at) = self.read_at else {
            self.fault.raise(name, Purpose::Reading);
            return Err(Failed);
        };
        let Some(bytes) = content_of(&self.files, name) else {
            self.fault.raise(name, Purpose::Reading);
            return Err(Failed);
        };
        let from = at.min(bytes.len());
        let count = copy_from(bytes, from, buffer);
        self.read_at = Some(from + count);
        Ok(count)
    }

    fn begin(&mut self, name: &str) -> Result<(), Failed>
        requires { length name.now ≤ NAME_LIMIT }
        ensures begun { MatchResult result (λ _. files_begun self.new ≡ Some name.now)
            (λ _. files_begun self.new ≡ None) }
        ensures empty { OnOk result
            (IsTrue (files_tell self.old) → files_content self.new name.now ≡ Some []) }
        ensures at_fault { OnErr result
            ((files_content self.new name.now ≡ files_content self.old name.now)
            ⊎ (files_content self.new name.now ≡ Some [])) }

        ensures cause { HasCause (files_faults self.old) (files_faults self.new) result }
        ensures fault_at { TellsFault (name.now, Purpose.Writing) (files_fault_at self.old)
            (files_fault_at self.new) result }

        ensures others { SameOthers name.now (files_content self.old) (files_content self.new) }
        ensures tells { files_tell self.new ≡ files_tell self.old }
        ensures chosen { files_chosen self.new ≡ files_chosen self.old }

        ensures succeeds { IsOk result
            ↔ (¬ IsToFail (files_calls self.old)
            × IsSome (file_in (files_kept self.old) name.now)) }
        ensures counted { files_calls self.new ≡ counted (files_calls self.old) }
        ensures labels { SameLabels (files_kept self.old) (files_kept self.new) }
        ensures nothing { IsToFail (files_calls self.old)
            → files_kept self.new ≡ files_kept self.old }
    {
        self.is_begun = false;
        if self.calls.count() {
            self.fault.raise(name.as_bytes(), Purpose::Writing);
            return Err(Failed);
        }
        if !empty_file(&mut self.files, name.as_bytes()) {
            self.fault.raise(name.as_bytes(), Purpose::Writing);
            return Err(Failed);
        }
        self.is_begun = true;
        self.write_name.set(name.as_bytes());
        Ok(())
    }

    fn add(&mut self, piece: &[u8]) -> Result<(), Failed>
        requires { IsSome (files_begun self.old) }
        ensures text { (file : List ℕ) → files_begun self.old ≡ Some file
            → Wrote true (files_content self.old file) (files_content self.new file) result
            piece.now }
        ensures begun { files_begun self.new ≡ files_begun self.old }

        ensures cause { HasCause (files_faults self.old) (files_faults self.new) result }
        ensures fault_at { (file : List ℕ) → files_begun self.old ≡ Some file
            → TellsFault (file, Purpose.Writing) (files_fault_at self.old) (files_fault_at self.new)
            result }

        ensures others { (file : List ℕ) → files_begun self.old ≡ Some file
            → SameOthers file (files_content self.old) (files_content self.new) }
        ensures tells { files_tell self.new ≡ files_tell self.old }
        ensures chosen { files_chosen self.new ≡ files_chosen self.old }

        ensures succeeds { (file : List ℕ) → files_begun self.old ≡ Some file → (IsOk result
            ↔ (¬ IsToFail (files_calls self.old)
            × HasRoom (file_in (files_kept self.old) file) piece.now)) }
        ensures counted { files_calls self.new ≡ counted (files_calls self.old) }
        ensures labels { SameLabels (files_kept self.old) (files_kept self.new) }
        ensures nothing { IsToFail (files_calls self.old)
            → files_kept self.new ≡ files_kept self.old }
    {
        let name = self.write_name.as_bytes();
        if self.calls.count() {
            self.fault.raise(name, Purpose::Writing);
            return Err(Failed);
        }
        if !append_to(&mut self.files, name, piece) {
            self.fault.raise(name, Purpose::Writing);
            return Err(Failed);
        }
        Ok(())
    }
}
