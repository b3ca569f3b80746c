//! A checker of a text that comes byte by byte.
ghost use Rattle.std.specs.Prelude.{◌≡◌, ◌+◌, ◌-◌, ◌<◌, ◌≤◌, ◌^◌, ◌∷◌, [], ℕ, List, length, take, IfErr, IfOk, OnErr, OnOk};
ghost use Rattle.lex_core.specs.NameTable.{IsNameTable};
ghost use Rattle.lex_core.specs.Token.{IsInterned, Token, fed_tokens, option_tokens, token_of};
ghost use Rattle.sexp_core.specs.Sexp.{flat};
ghost use Rattle.term_store.specs.SoundScript.{IsSound};
ghost use Rattle.script_core.specs.Interned.{AreInterned};
ghost use Rattle.datatype_commands.specs.KnownDatatypes.{KnowsDatatypes};
ghost use Rattle.logic_frag.specs.Following.{AppliesLower, plain_defs};
ghost use Rattle.script_core.specs.Environment.{signature_in};
ghost use Rattle.script_core.specs.Keeping.{KeepsBelow, KeepsEarlier};
ghost use Rattle.script_core.specs.Checking.{Awaits, BreaksTree, BreaksWith, BreaksWithin, HasTaken, IfEnded, IfMore, IfRefused, IsReadyScope, accepted_by, environment_of};
ghost use Rattle.script_core.specs.Checking.{AcceptsText, ExitsByte, ExitsBytes, ExitsWithin, RefusesByte, RefusesBytes, RefusesText, TakesByte, TakesBytes, TakesTokens, TakesTree};

use crate::refusal::{Progress, Refusal, Stop};
use crate::scope::{Scope, StepError, take_tree};
use io_core::NoMemory;
use lex_core::{Fed, LexError, Lexer, Names, Place, Tok};
use sexp_core::{Builder, SexpError, Tree};
use std::alloc::Global;
use typer::World;

/// Checks a text that comes byte by byte: the lexer makes tokens of the bytes, the builder lists of the tokens, and each
/// complete list is taken as a command.
#[derive(Drop)]
pub struct Checker {
    pub lexer: Lexer,
    pub builder: Builder,
    pub scope: Scope,
}

// What every table of names is.
fn known_table(names: &Names)
    ensures { IsNameTable names.now }
{
    names.count();
}

impl Checker {
    /// A checker that has taken nothing.
    pub fn new(alloc: Global) -> Result<Checker, NoMemory>
        ensures taken { IfOk result (λ checker. HasTaken [] checker) }
        ensures sound { IfOk result (λ checker. IsSound checker.scope.world.script) }
    {
        let world = World::new(alloc)?;
        known_table(&world.names);
        Ok(Checker {
            lexer: Lexer::new(alloc),
            builder: Builder::new(alloc),
            scope: Scope {
                world,
                logic: None,
                next: 0,
                alloc,
            },
        })
    }

    // The refusal of the next command, at this place.
    fn refusal(&self, place: Place) -> Stop
        requires { length (accepted_by self.now) < 2 ^ 32 - 1 }
        ensures { result ≡ Stop.Refused (record { command = length (accepted_by self.now) + 1; at = place.at; rule = place.code }) }
    {
        Stop::Refused(Refusal {
            command: self.scope.world.script.len() as u32 + 1,
            at: place.at,
            rule: place.code,
        })
    }

    // Takes a complete list.
    fn take_list(&mut self, tree: &Tree) -> Result<Progress, Stop>
        requires interned { AreInterned self.old.scope.world.names (flat tree.now) }
        requires stands { IsReadyScope self.old.scope }
        requires known { KnowsDatatypes (signature_in (environment_of self.old.scope.world.names self.old.scope)) }
        requires kept { KeepsBelow self.old.scope.next self.old.scope.world.script.defs }
        requires lower { AppliesLower (plain_defs self.old.scope.world.script.defs) }
        requires few { length (accepted_by self.old) + 1 < 2 ^ 32 - 1 }
        ensures ok { IfOk result (λ progress. TakesTree self.old.scope tree.now progress self.new.scope) }
        ensures refused { IfErr result (λ e. IfRefused e (BreaksTree self.old tree.now)) }
        ensures stands { OnOk result (IsReadyScope self.new.scope) }
        ensures script { OnErr result (KeepsEarlier self.old.scope.next self.old.scope.world.script self.new.scope.world.script) }
        ensures counted { length (accepted_by self.new) ≤ length (accepted_by self.old) + 1 }
        ensures same { (self.new.scope.world.names ≡ self.old.scope.world.names) × (self.new.lexer ≡ self.old.lexer) × (self.new.builder ≡ self.old.builder) }
    {
        match take_tree(&mut self.scope, tree) {
            Ok(progress) => Ok(progress),
            Err(StepError::NoMemory) => Err(Stop::NoMemory),
            Err(StepError::Broken(place)) => Err(self.refusal(place)),
        }
    }

    // Takes the next token.
    fn take_token(&mut self, tok: Tok) -> Result<Progress, Stop>
        requires awaits { (tokens : List Token) × Awaits tokens (token_of self.old.scope.world.names tok ∷ []) self.old }
        requires table { IsNameTable self.old.scope.world.names }
        requires interned { tok.name < length self.old.scope.world.names }
        requires sound { IsSound self.old.scope.world.script }
        requires short { length self.old.builder.0 < 2 ^ 31 }
        requires few { length (accepted_by self.old) + 1 < 2 ^ 32 - 1 }
        ensures more { let next = token_of self.old.scope.world.names tok in
            IfMore result (TakesTokens self.old (next ∷ []) (next ∷ []) self.new) }
        ensures ended { let next = token_of self.old.scope.world.names tok in
            IfEnded result (ExitsWithin self.old (next ∷ []) (next ∷ []) (accepted_by self.new)) }
        ensures refused { IfErr result (λ e. IfRefused e (BreaksWith self.old (token_of self.old.scope.world.names tok) (accepted_by self.new))) }
        ensures counted { length (accepted_by self.new) ≤ length (accepted_by self.old) + 1 }
        ensures sound { IsSound self.new.scope.world.script }
        ensures longer { IfMore result (length self.new.builder.0 ≤ length self.old.builder.0 + 1) }
        ensures same { (self.new.scope.world.names ≡ self.old.scope.world.names) × (self.new.lexer ≡ self.old.lexer) }
    {
        match self.builder.take(tok) {
            Ok(None) => Ok(Progress::More),
            Ok(Some(tree)) => self.take_list(&tree),
            Err(SexpError::NoMemory) => Err(Stop::NoMemory),
            Err(SexpError::Fault(place)) => Err(self.refusal(place)),
        }
    }

    // Takes the next token, where there is one.
    fn take_option(&mut self, tok: Option<Tok>) -> Result<Progress, Stop>
        requires awaits { (tokens : List Token) × Awaits tokens (option_tokens self.old.scope.world.names tok) self.old }
        requires table { IsNameTable self.old.scope.world.names }
        requires interned { IsInterned self.old.scope.world.names tok }
        requires sound { IsSound self.old.scope.world.script }
        requires short { length self.old.builder.0 < 2 ^ 31 }
        requires few { length (accepted_by self.old) + 1 < 2 ^ 32 - 1 }
        ensures more { let next = option_tokens self.old.scope.world.names tok in IfMore result (TakesTokens self.old next next self.new) }
        ensures ended { let next = option_tokens self.old.scope.world.names tok in IfEnded result (ExitsWithin self.old next next (accepted_by self.new)) }
        ensures refused { let next = option_tokens self.old.scope.world.names tok in IfErr result (λ e. IfRefused e (BreaksWithin self.old next next (accepted_by self.new))) }
        ensures counted { length (accepted_by self.new) ≤ length (accepted_by self.old) + 1 }
        ensures sound { IsSound self.new.scope.world.script }
        ensures longer { IfMore result (length self.new.builder.0 ≤ length self.old.builder.0 + 1) }
        ensures same { (self.new.scope.world.names ≡ self.old.scope.world.names) × (self.new.lexer ≡ self.old.lexer) }
    {
        match tok {
            None => Ok(Progress::More),
            Some(tok) => self.take_token(tok),
        }
    }

    // Takes the tokens that a byte completes. The table has gained the name of the first of them alone.
    fn take_fed(&mut self, fed: Fed) -> Result<Progress, Stop>
        requires awaits { (tokens : List Token) × Awaits tokens (take 1 (fed_tokens self.old.scope.world.names fed)) self.old }
        requires table { IsNameTable self.old.scope.world.names }
        requires interned { IsInterned self.old.scope.world.names fed.first × IsInterned self.old.scope.world.names fed.second }
        requires sound { IsSound self.old.scope.world.script }
        requires short { length self.old.builder.0 + 1 < 2 ^ 31 }
        requires few { length (accepted_by self.old) + 2 < 2 ^ 32 - 1 }
        ensures more { let all = fed_tokens self.old.scope.world.names fed in IfMore result (TakesTokens self.old (take 1 all) all self.new) }
        ensures ended { let all = fed_tokens self.old.scope.world.names fed in IfEnded result (ExitsWithin self.old (take 1 all) all (accepted_by self.new)) }
        ensures refused { let all = fed_tokens self.old.scope.world.names fed in
            IfErr result (λ e. IfRefused e (BreaksWithin self.old (take 1 all) all (accepted_by self.new))) }
        ensures sound { IsSound self.new.scope.world.script }
        ensures counted { length (accepted_by self.new) ≤ length (accepted_by self.old) + 2 }
        ensures same { (self.new.scope.world.names ≡ self.old.scope.world.names) × (self.new.lexer ≡ self.old.lexer) }
    {
        let Fed { first, second } = fed;
        match first {
            None => self.take_option(second),
            Some(first) => match self.take_token(first) {
                Ok(Progress::More) => self.take_option(second),
                Ok(Progress::Ended) => Ok(Progress::Ended),
                Err(stop) => Err(stop),
            },
        }
    }

    /// Takes the next byte. `Refused` comes exactly where the bytes so far, without their end, are refused, and `Ended` exactly
    /// where an `exit` ends with this byte.
    pub fn take_byte(&mut self, byte: u8) -> Result<Progress, Stop>
        requires sound { IsSound self.old.scope.world.script }
        requires taken { (bytes : List ℕ) × HasTaken bytes self.old × (length bytes < 2 ^ 30) }
        ensures more { IfMore result (TakesByte self.old byte self.new) }
        ensures ended { IfEnded result (ExitsByte self.old byte (accepted_by self.new)) }
        ensures refused { IfErr result (λ e. IfRefused e (RefusesByte self.old byte (accepted_by self.new))) }
        ensures sound { IsSound self.new.scope.world.script }
    {
        let fed = self.lexer.feed(&mut self.scope.world.names, byte);
        known_table(&self.scope.world.names);
        match fed {
            Ok(fed) => self.take_fed(fed),
            Err(LexError::NoMemory) => Err(Stop::NoMemory),
            Err(LexError::Fault(fault)) => match self.take_option(fault.before) {
                Ok(Progress::More) => Err(self.refusal(fault.place)),
                Ok(Progress::Ended) => Ok(Progress::Ended),
                Err(stop) => Err(stop),
            },
        }
    }

    /// Takes bytes one after the other, up to the first that is refused or ends the script. The bytes after it are dropped.
    pub fn take_bytes(&mut self, piece: &[u8]) -> Result<Progress, Stop>
        requires sound { IsSound self.old.scope.world.script }
        requires taken { (bytes : List ℕ) × HasTaken bytes self.old × (length bytes + length piece.now ≤ 2 ^ 30) }
        ensures more { IfMore result (TakesBytes self.old piece.now self.new) }
        ensures ended { IfEnded result (ExitsBytes self.old piece.now (accepted_by self.new)) }
        ensures refused { IfErr result (λ e. IfRefused e (RefusesBytes self.old piece.now (accepted_by self.new))) }
        ensures sound { IsSound self.new.scope.world.script }
    {
        for byte in piece {
            match self.take_byte(*byte) {
                Ok(Progress::More) => {}
                Ok(Progress::Ended) => return Ok(Progress::Ended),
                Err(stop) => return Err(stop),
            }
        }
        Ok(Progress::More)
    }

    /// Takes the end. `Refused` comes exactly where the whole text is refused.
    pub fn take_end(&mut self) -> Result<(), Stop>
        requires sound { IsSound self.old.scope.world.script }
        requires taken { (bytes : List ℕ) × HasTaken bytes self.old × (length bytes ≤ 2 ^ 30) }
        ensures ok { OnOk result (AcceptsText self.old (accepted_by self.new)) }
        ensures refused { IfErr result (λ e. IfRefused e (RefusesText self.old (accepted_by self.new))) }
        ensures sound { IsSound self.new.scope.world.script }
    {
        let left = self.lexer.finish(&mut self.scope.world.names);
        known_table(&self.scope.world.names);
        match left {
            Ok(left) => match self.take_option(left) {
                Ok(Progress::More) => match self.builder.finish() {
                    Ok(()) => Ok(()),
                    Err(place) => Err(self.refusal(place)),
                },
                Ok(Progress::Ended) => Ok(()),
                Err(stop) => Err(stop),
            },
            Err(LexError::NoMemory) => Err(Stop::NoMemory),
            Err(LexError::Fault(fault)) => Err(self.refusal(fault.place)),
        }
    }
}
