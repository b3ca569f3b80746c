//! The laws of the rules on the groups of datatypes that commands declare.
ghost use Rattle.std.specs.Prelude.{ℕ, List};
ghost use Rattle.lex_core.specs.declared.token.Tok.{Tok};
ghost use Rattle.judgement.specs.Judging.{DeclaresNone, Lawful};
ghost use Rattle.cmd_grammar.specs.Commands.{DataDec, SortDec};
ghost use Rattle.typer.specs.FunctionSymbols.{Signature};
ghost use Rattle.datatype_commands.specs.GroupRules.{judge_group, judge_single};

/// The law of groups: under any signature exactly one outcome holds of each group of datatypes and of each single datatype, and
/// neither declares a name of a term. It computes nothing: its contract states the law.
pub fn group_laws()
    ensures group { (signature : Signature) (at : ℕ) (ss : List SortDec) (ds : List DataDec) → Lawful (judge_group signature at ss ds) }
    ensures single { (signature : Signature) (at : ℕ) (n : Tok) (d : DataDec) → Lawful (judge_single signature at n d) }
    ensures unnamed_group { (signature : Signature) (at : ℕ) (ss : List SortDec) (ds : List DataDec) → DeclaresNone (judge_group signature at ss ds) }
    ensures unnamed_single { (signature : Signature) (at : ℕ) (n : Tok) (d : DataDec) → DeclaresNone (judge_single signature at n d) }
{}
