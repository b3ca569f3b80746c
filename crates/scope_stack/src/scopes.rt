ghost use Rattle.std.specs.Prelude.{◌≡◌, ◌+◌, ◌<◌, ◌↔◌, Err, IsErr, IsSome, OnOk, OnErr};
ghost use Rattle.std.specs.Option.{option_copied};
ghost use Rattle.scope_stack.specs.Levels.{found};
ghost use Rattle.scope_stack.specs.Environment.{empty, depth, with_fun, with_sort, with_global, with_pushed, with_popped, without_assertions, IsConsistent};

use crate::entry::{FunEntry, SortEntry};
use crate::error::{ScopeError, TooFew};
use crate::name_space::NameSpace;
use lex_core::NameId;
use std::alloc::Global;
use std::marker::Model;

/// The most levels that may be open.
pub const MAX_LEVELS: usize = 65_535;

/// The live function and sort symbols, and whether declarations are global (SMT-LIB 2.6, section
/// 4.1.4). Contracts see the levels of each name space as lists of declarations.
#[derive(Drop)]
pub struct Scopes {
    funs: NameSpace<FunEntry>,
    sorts: NameSpace<SortEntry>,
    global: bool,
}

impl Model for Scopes {
    ghost use Rattle.scope_stack.specs.Environment.{Environment, IsConsistent};
    ghost use Rattle.scope_stack.specs.Coded.{environment_code};

    ghost Value = { Environment };

    ghost coded = { environment_code };

    ghost view = { λ s. record { funs = s.funs; sorts = s.sorts; global = s.global } };

    ghost invariant = { λ s. IsConsistent s.funs s.sorts };
}

impl Scopes {
    /// Nothing is declared, one level that can't be closed is there, and declarations are not
    /// global.
    #[tactic(auto, using(crate::proofs::DistinctNamesKept::consistent_words))]
    pub fn new(alloc: Global) -> Scopes
        ensures { result ≡ empty }
    {
        Scopes {
            funs: NameSpace::new(alloc),
            sorts: NameSpace::new(alloc),
            global: false,
        }
    }

    /// How many levels are open past the first.
    pub fn levels(&self) -> u32
        ensures depth { result ≡ depth self.now }
        ensures consistent { IsConsistent self.now.funs self.now.sorts }
    {
        self.funs.depth() as u32
    }

    /// What the function symbol stands for; none where it is not live.
    pub fn find_fun(&self, name: NameId) -> Option<&FunEntry>
        ensures { option_copied result ≡ found name self.now.funs }
    {
        self.funs.find(name.number())
    }

    /// What the sort symbol stands for; none where it is not live.
    pub fn find_sort(&self, name: NameId) -> Option<&SortEntry>
        ensures { option_copied result ≡ found name self.now.sorts }
    {
        self.sorts.find(name.number())
    }

    /// Whether declarations are global from now on.
    pub fn set_global(&mut self, on: bool)
        ensures { self.new ≡ with_global on self.old }
    {
        self.global = on;
    }

    /// Declares a function symbol, in the present level or globally. The errors are `InUse`, exactly
    /// where it is live, and that memory runs out; either leaves all as it was.
    #[tactic(auto, using(crate::proofs::DistinctNamesKept::consistent_words))]
    pub fn declare_fun(&mut self, name: NameId, entry: FunEntry) -> Result<(), ScopeError>
        ensures ok { OnOk result (self.new ≡ with_fun name entry self.old) }
        ensures in_use { (result ≡ Err ScopeError.InUse) ↔ IsSome (found name self.old.funs) }
        ensures never { ¬ (result ≡ Err ScopeError.TooDeep) }
        ensures err { OnErr result (self.new ≡ self.old) }
    {
        let number = name.number();
        if self.funs.find(number).is_some() {
            return Err(ScopeError::InUse);
        }
        match self.funs.declare(number, entry, self.global) {
            Ok(()) => Ok(()),
            Err(_) => Err(ScopeError::NoMemory),
        }
    }

    /// Declares a sort symbol, as `declare_fun` a function symbol.
    #[tactic(auto, using(crate::proofs::DistinctNamesKept::consistent_words))]
    pub fn declare_sort(&mut self, name: NameId, entry: SortEntry) -> Result<(), ScopeError>
        ensures ok { OnOk result (self.new ≡ with_sort name entry self.old) }
        ensures in_use { (result ≡ Err ScopeError.InUse) ↔ IsSome (found name self.old.sorts) }
        ensures never { ¬ (result ≡ Err ScopeError.TooDeep) }
        ensures err { OnErr result (self.new ≡ self.old) }
    {
        let number = name.number();
        if self.sorts.find(number).is_some() {
            return Err(ScopeError::InUse);
        }
        match self.sorts.declare(number, entry, self.global) {
            Ok(()) => Ok(()),
            Err(_) => Err(ScopeError::NoMemory),
        }
    }

    /// Opens `n` levels. The errors are `TooDeep`, exactly where more than 65,535 would be open, and
    /// that memory runs out; either leaves all as it was.
    #[tactic(auto, using(crate::proofs::DistinctNamesKept::consistent_words))]
    pub fn push(&mut self, n: u32) -> Result<(), ScopeError>
        ensures ok { OnOk result (self.new ≡ with_pushed n self.old) }
        ensures too_deep { (result ≡ Err ScopeError.TooDeep) ↔ (65535 < depth self.old + n) }
        ensures never { ¬ (result ≡ Err ScopeError.InUse) }
        ensures err { OnErr result (self.new ≡ self.old) }
    {
        if n as usize > MAX_LEVELS - self.funs.depth() {
            return Err(ScopeError::TooDeep);
        }
        match self.funs.open(n) {
            Ok(()) => {}
            Err(_) => return Err(ScopeError::NoMemory),
        }
        match self.sorts.open(n) {
            Ok(()) => Ok(()),
            Err(_) => {
                self.funs.close(n as usize);
                Err(ScopeError::NoMemory)
            }
        }
    }

    /// Closes `n` levels, with all that was declared in them and not globally. The error comes
    /// exactly where fewer are open; it leaves all as it was.
    #[tactic(auto, using(crate::proofs::DistinctNamesKept::consistent_words))]
    pub fn pop(&mut self, n: u32) -> Result<(), TooFew>
        ensures ok { OnOk result (self.new ≡ with_popped n self.old) }
        ensures too_few { IsErr result ↔ (depth self.old < n) }
        ensures err { OnErr result (self.new ≡ self.old) }
    {
        if n as usize > self.funs.depth() {
            return Err(TooFew);
        }
        self.funs.close(n as usize);
        self.sorts.close(n as usize);
        Ok(())
    }

    /// Closes all levels, and forgets all that was not declared globally, also in the first level.
    #[tactic(auto, using(crate::proofs::DistinctNamesKept::consistent_words))]
    pub fn reset_assertions(&mut self)
        ensures { self.new ≡ without_assertions self.old }
    {
        self.funs.clear_levels();
        self.sorts.clear_levels();
    }

    /// Leaves all as `new` makes it.
    #[tactic(auto, using(crate::proofs::DistinctNamesKept::consistent_words))]
    pub fn reset(&mut self)
        ensures { self.new ≡ empty }
    {
        self.funs.clear();
        self.sorts.clear();
        self.global = false;
    }
}
