ghost use Rattle.std.specs.Prelude.{◌≡◌, ◌≤◌, ◌++◌, [], ◌∷◌, None, length, replicate, OnOk, OnErr};
ghost use Rattle.std.specs.Option.{option_copied};
ghost use Rattle.std.specs.Map.{lookup};
ghost use Rattle.scope_stack.specs.Levels.{no_levels, found, is_name, declared, opened, closed, only_globals};

use indexmap::IndexMap;
use std::alloc::{AllocError, Global};
use std::marker::Model;

// The declarations of one name space, by the numbers of their names. The levels stand one after the
// other in one map, so that closing some of them shortens it.
#[derive(Drop)]
pub(crate) struct NameSpace<T> {
    // All declarations that are not global, oldest first.
    scoped: IndexMap<u32, T>,
    // How many there were when each open level was opened.
    starts: Vec<usize>,
    globals: IndexMap<u32, T>,
}

impl<T> Model for NameSpace<T> {
    ghost use Rattle.std.specs.Prelude.{length};
    ghost use Rattle.scope_stack.specs.Levels.{Levels};
    ghost use Rattle.scope_stack.specs.LevelStarts.{first_of, pushed_of, AreStarts};

    ghost Value = { Levels T };

    ghost view = { λ s. record { first = first_of s.starts.items s.scoped.entries; pushed = pushed_of s.starts.items s.scoped.entries; globals = s.globals.entries } };

    ghost invariant = { λ s. AreStarts 0 s.starts.items (length s.scoped.entries) };
}

// The entry under this name.
fn find_in<T>(declarations: &IndexMap<u32, T>, name: u32) -> Option<&T>
    ensures { option_copied result ≡ lookup (is_name name) declarations.now.entries }
{
    declarations.get(&name)
}

// Puts a declaration of a new name last.
fn put<T: Drop>(declarations: &mut IndexMap<u32, T>, name: u32, entry: T) -> Result<(), AllocError>
    requires { lookup (is_name name) declarations.old.entries ≡ None }
    ensures ok { OnOk result (declarations.new.entries ≡ declarations.old.entries ++ (name, entry) ∷ []) }
    ensures err { OnErr result (declarations.new.entries ≡ declarations.old.entries) }
{
    match declarations.insert(name, entry) {
        Ok(_) => Ok(()),
        Err(_) => Err(AllocError),
    }
}

// Lets this many levels begin at a place.
#[tactic(auto, using(crate::proofs::LevelsInOneList::open_words))]
fn push_starts(starts: &mut Vec<usize>, at: usize, n: u32) -> Result<(), AllocError>
    ensures ok { OnOk result (starts.new.items ≡ starts.old.items ++ replicate n at) }
    ensures err { OnErr result (starts.new.items ≡ starts.old.items) }
{
    let before = starts.len();
    for _i in 0..n {
        match starts.push(at) {
            Ok(()) => {}
            Err(_) => {
                starts.truncate(before);
                return Err(AllocError);
            }
        }
    }
    Ok(())
}

impl<T: Drop> NameSpace<T> {
    pub(crate) fn new(alloc: Global) -> NameSpace<T>
        ensures { result ≡ no_levels }
    {
        NameSpace {
            scoped: IndexMap::new(alloc),
            starts: Vec::new(alloc),
            globals: IndexMap::new(alloc),
        }
    }

    #[tactic(auto, using(crate::proofs::LevelsInOneList::depth_words))]
    pub(crate) fn depth(&self) -> usize
        ensures { result ≡ length self.now.pushed }
    {
        self.starts.len()
    }

    #[tactic(auto, using(crate::proofs::LevelsInOneList::found_words))]
    pub(crate) fn find(&self, name: u32) -> Option<&T>
        ensures { option_copied result ≡ found name self.now }
    {
        match find_in(&self.scoped, name) {
            Some(entry) => Some(entry),
            None => find_in(&self.globals, name),
        }
    }

    pub(crate) fn declare(&mut self, name: u32, entry: T, global: bool) -> Result<(), AllocError>
        requires { found name self.old ≡ None }
        ensures ok { OnOk result (self.new ≡ declared global (name, entry) self.old) }
        ensures depth { length self.new.pushed ≡ length self.old.pushed }
        ensures err { OnErr result (self.new ≡ self.old) }
    {
        if global {
            return put(&mut self.globals, name, entry);
        }
        put(&mut self.scoped, name, entry)
    }

    pub(crate) fn open(&mut self, n: u32) -> Result<(), AllocError>
        ensures ok { OnOk result (self.new ≡ opened n self.old) }
        ensures err { OnErr result (self.new ≡ self.old) }
    {
        push_starts(&mut self.starts, self.scoped.len(), n)
    }

    pub(crate) fn close(&mut self, n: usize)
        requires { n ≤ length self.old.pushed }
        ensures { self.new ≡ closed n self.old }
    {
        if n == 0 {
            return;
        }
        let depth = self.starts.len() - n;
        self.scoped.truncate(self.starts[depth]);
        self.starts.truncate(depth);
    }

    pub(crate) fn clear_levels(&mut self)
        ensures { self.new ≡ only_globals self.old }
    {
        self.starts.clear();
        self.scoped.clear();
    }

    pub(crate) fn clear(&mut self)
        ensures { self.new ≡ no_levels }
    {
        self.clear_levels();
        self.globals.clear();
    }
}
