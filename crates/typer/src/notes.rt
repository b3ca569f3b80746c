//! The attributes of terms.
ghost use Rattle.std.specs.Prelude.{◌≡◌, IfErr, IfOk, map};
ghost use Rattle.term_store.specs.Interned.{AreNotesInterned};
ghost use Rattle.term_store.specs.NumberedNodes.{numbered_notes};
ghost use Rattle.term_store.specs.Term.{other, tree};
ghost use Rattle.typer.specs.Ready.{IsReady};
ghost use Rattle.typer.specs.TermRules.{annotated_term, attribute_key, attribute_value};
ghost use Rattle.typer.specs.Typed.{HasGrown, IsTyped, plain_note};

use crate::typed::{TypedTerm, new_term};
use crate::world::World;
use dt_rules::TyError;
use std::alloc::Global;
use term_grammar::{RawAttribute, RawAttributeKind};
use term_store::{Note, TermNode};

/// An attribute other than `:named` and `:pattern`, as it is written. The only error is that memory runs out.
pub(crate) fn other_note(alloc: Global, attribute: &RawAttribute) -> Result<Note, TyError>
    ensures ok { IfOk result (λ n. plain_note n ≡ other (attribute_key attribute.now).name (attribute_value attribute.now)) }
    ensures err { IfErr result (λ e. e ≡ TyError.NoMemory) }
{
    match attribute.kind() {
        RawAttributeKind::Keyword(keyword) => Ok(Note::Other {
            key: keyword.name,
            value: None,
        }),
        RawAttributeKind::Valued { keyword, value } => match value.copy(alloc) {
            Ok(tree) => Ok(Note::Other {
                key: keyword.name,
                value: Some(tree),
            }),
            Err(_) => Err(TyError::NoMemory),
        },
    }
}

/// A term with attributes.
pub(crate) fn new_annotation(
    world: &mut World,
    body: TypedTerm,
    notes: Vec<Note>,
) -> Result<TypedTerm, TyError>
    requires ready { IsReady world.old }
    requires body { IsTyped world.old body }
    requires notes { AreNotesInterned world.old.terms (numbered_notes notes.items) }
    ensures term { IfOk result (λ t. tree t.term ≡ annotated_term (tree body.term) (map plain_note notes.items)) }
    ensures typed { IfOk result (IsTyped world.new) }
    ensures grown { HasGrown world.old world.new }
    ensures ready { IsReady world.new }
    ensures err { IfErr result (λ e. e ≡ TyError.NoMemory) }
{
    let TypedTerm { term, sort } = body;
    let node = TermNode::Ann { body: term, notes };
    new_term(world, node, sort)
}
