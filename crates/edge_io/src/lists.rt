//! Lists of files and of calls, which clauses see as plain lists.
//!
//! They are for files and sinks in memory, which no run of the program has.
ghost use Rattle.std.specs.Prelude.{◌≡◌, ◌==◌, ◌<◌, List, ℕ, map, length, string_bytes, position, bytes_eq};
ghost use Rattle.std.specs.List.{list_any};
ghost use Rattle.edge_io.specs.Held.{NamedFiles};
ghost use Rattle.edge_io.specs.InMemory.{bytes_at, IsIndexOf};

use std::marker::Model;

/// The numbers of calls; the first call has the number 1.
#[derive(Drop)]
pub struct CallList {
    calls: Vec<u64>,
}

impl Model for CallList {
    ghost Value = { List ℕ };

    ghost view = { λ list. list.calls.items };
}

impl CallList {
    pub fn new(calls: Vec<u64>) -> CallList
        ensures { result ≡ calls.items }
    {
        CallList { calls }
    }

    pub(crate) fn contains(&self, call: u64) -> bool
        ensures { result ≡ list_any (λ n. n == call) self.now }
    {
        self.calls.contains(&call)
    }
}

/// Names with their bytes. Of several pairs with one name the first counts.
#[derive(Drop)]
pub struct FileList {
    files: Vec<(String, Vec<u8>)>,
}

impl Model for FileList {
    ghost Value = { NamedFiles };

    ghost view = { λ list. map (λ file. (string_bytes file.0, file.1.items)) list.files.items };
}

impl FileList {
    pub fn new(files: Vec<(String, Vec<u8>)>) -> FileList
        ensures { result ≡ map (λ file. (string_bytes file.0, file.1.items)) files.items }
    {
        FileList { files }
    }

    /// The index of the first pair with this name.
    pub(crate) fn index_of(&self, name: &str) -> Option<usize>
        ensures { IsIndexOf self.now name.now result }
    {
        index_in(&self.files, name)
    }

    /// The bytes of the pair at an index.
    pub(crate) fn bytes_at(&self, index: usize) -> &[u8]
        requires { index < length self.now }
        ensures { result.now ≡ bytes_at self.now index }
    {
        &self.files[index].1
    }
}

fn index_in(files: &[(String, Vec<u8>)], name: &str) -> Option<usize>
    ensures { result ≡ position (λ file. bytes_eq (string_bytes file.0) name.now) files.now }
{
    files.iter().position(|file| file.0.as_str() == name)
}
