ghost use Rattle.std.specs.Prelude.{◌≡◌};
ghost use Rattle.sig_table.specs.CodeText.{code_text};
ghost use Rattle.sig_table.specs.declared.code.Code.{Code};

/// The rule that a script breaks, or the reason why an accepted script has no export.
#[derive(Clone, Copy, Debug, PartialEq, Eq)]
pub enum Code {
    /// LEX-1. A byte that may not stand where it is.
    UnexpectedByte,
    /// LEX-2. A word that spells no token, and that no further byte can mend.
    MalformedWord,
    /// LEX-3. The input ends in a string literal.
    UnclosedString,
    /// LEX-4. The input ends in a quoted symbol.
    UnclosedQuotedSymbol,
    /// LEX-5. A backslash in a quoted symbol.
    BackslashInQuotedSymbol,
    /// SX-1. `)` where no list is open.
    UnmatchedClose,
    /// SX-2. An atom outside every list.
    AtomOutsideLists,
    /// SX-3. The input ends in a list.
    UnclosedList,
    /// LI-1. More than 4,000 lists are open.
    ListsTooDeep,
    /// LI-2. The canonical text of the command nests deeper than 4,000.
    TextTooDeep,
    /// LI-3. A sort of more than 1,000 nodes, with definitions expanded.
    SortTooLarge,
    /// LI-4. An index, an arity or a width above 4,294,967,295.
    NumberTooLarge,
    /// LI-5. More than 65,535 assertion levels would be open.
    TooManyLevels,
    /// LI-6. The unfolding of a group of datatypes has more than 2,000 sorts.
    UnfoldingTooLarge,
    /// GR-1. The list does not begin with the name of a command.
    UnknownCommand,
    /// GR-2. The form is not that of the command.
    WrongCommandForm,
    /// GR-3. What stands in the place of a sort or a term has the form of none.
    WrongTermForm,
    /// MO-1. A command that may not stand before `set-logic`.
    LogicNotSet,
    /// MO-2. `set-logic` where a logic is set.
    LogicAlreadySet,
    /// MO-3. The logic is unknown.
    UnknownLogic,
    /// MO-4. `set-option :global-declarations` where a logic is set.
    GlobalOptionTooLate,
    /// MO-5. `pop` of more levels than are open.
    TooFewLevels,
    /// NA-1. The function name is in use.
    FunctionNameInUse,
    /// NA-2. The sort name is in use.
    SortNameInUse,
    /// NA-3. An unknown sort.
    UnknownSort,
    /// NA-4. A sort symbol has a wrong number of arguments.
    WrongSortArity,
    /// NA-5. A repeated parameter, `let` variable or pattern variable.
    RepeatedVariable,
    /// NA-6. A defined sort stands for a sort with a symbol that has the name of a parameter of the command.
    CapturedSortParameter,
    /// TY-1. An unknown function symbol.
    UnknownFunction,
    /// TY-2. The function symbol has no rank with these argument sorts.
    NoRank,
    /// TY-3. The constructor needs `as`, since its arguments do not give its sort.
    AmbiguousConstructor,
    /// TY-4. The sort that `as` names is not that of the application.
    WrongQualifiedSort,
    /// TY-5. The logic has no sort for the literal.
    LiteralWithoutSort,
    /// TY-6. A term of another sort than its place asks for.
    WrongTermSort,
    /// TY-7. A wrong index, or a wrong number of indices.
    WrongIndex,
    /// TY-8. A bound variable with arguments or with `as`.
    AppliedVariable,
    /// TY-9. `:named` at a term with a free variable, or with a name in use.
    WrongNamedTerm,
    /// DT-1. The number of sort parameters, or of datatypes, is not the declared one.
    WrongParameterCount,
    /// DT-2. The datatype is not well-founded.
    NotWellFounded,
    /// DT-3. The name of a constructor or a selector is in use.
    DatatypeNameInUse,
    /// MA-1. `match` on a term whose sort is no datatype.
    MatchOnNonDatatype,
    /// MA-2. The pattern begins with no constructor of the datatype.
    UnknownConstructor,
    /// MA-3. The pattern has a wrong number of variables.
    WrongPatternArity,
    /// MA-4. A constructor has no match case.
    UncoveredConstructor,
    /// MA-5. A branch of another sort than the first branch.
    WrongBranchSort,
    /// FR-1. A quantifier, where the logic has none.
    QuantifierOutsideLogic,
    /// FR-2. A declared sort, where the logic has none.
    SortOutsideLogic,
    /// FR-3. A declared function with arguments, where the logic has none.
    FunctionOutsideLogic,
    /// FR-4. A term that is not linear, where the logic is linear.
    NotLinear,
    /// FR-5. A term or an atom outside difference logic.
    NotDifference,
    /// FR-6. An array sort that the logic does not have.
    ArrayOutsideLogic,
    /// FR-7. A datatype, where the logic has none.
    DatatypeOutsideLogic,
    /// FR-8. A recursive definition, where the logic has none.
    RecursionOutsideLogic,
    /// EX-1. A `set-info` whose keyword is kept for the export.
    ReservedInfo,
    /// EX-2. The recovered text is longer than 2^30 bytes.
    RecoveredTooLong,
    /// EX-3. The export has too many instances, or one that is too large.
    TooManyInstances,
    /// EX-4. The input is not the export of a script.
    NotAnExport,
    /// EX-5. A sort that the translation does not have.
    UntranslatableSort,
    /// EX-6. A function with a Boolean argument, which the translation does not have.
    BooleanArgument,
    /// EX-7. A recursive definition, which the translation does not have.
    RecursiveDefinition,
    /// EX-8. The check is made under assumptions.
    CheckUnderAssumptions,
    /// EX-9. The translation of an assertion would be too large.
    ChargeTooLarge,
}

impl Code {
    /// The code as it is printed, as `LEX-1`.
    pub fn text(self) -> &'static [u8]
        ensures text { result.now ≡ code_text self }

        // No two codes have one text.
        ensures apart { (code : Code) → code_text code ≡ result.now → code ≡ self }
    {
        match self {
            Code::UnexpectedByte => b"LEX-1",
            Code::MalformedWord => b"LEX-2",
            Code::UnclosedString => b"LEX-3",
            Code::UnclosedQuotedSymbol => b"LEX-4",
            Code::BackslashInQuotedSymbol => b"LEX-5",
            Code::UnmatchedClose => b"SX-1",
            Code::AtomOutsideLists => b"SX-2",
            Code::UnclosedList => b"SX-3",
            Code::ListsTooDeep => b"LI-1",
            Code::TextTooDeep => b"LI-2",
            Code::SortTooLarge => b"LI-3",
            Code::NumberTooLarge => b"LI-4",
            Code::TooManyLevels => b"LI-5",
            Code::UnfoldingTooLarge => b"LI-6",
            Code::UnknownCommand => b"GR-1",
            Code::WrongCommandForm => b"GR-2",
            Code::WrongTermForm => b"GR-3",
            Code::LogicNotSet => b"MO-1",
            Code::LogicAlreadySet => b"MO-2",
            Code::UnknownLogic => b"MO-3",
            Code::GlobalOptionTooLate => b"MO-4",
            Code::TooFewLevels => b"MO-5",
            Code::FunctionNameInUse => b"NA-1",
            Code::SortNameInUse => b"NA-2",
            Code::UnknownSort => b"NA-3",
            Code::WrongSortArity => b"NA-4",
            Code::RepeatedVariable => b"NA-5",
            Code::CapturedSortParameter => b"NA-6",
            Code::UnknownFunction => b"TY-1",
            Code::NoRank => b"TY-2",
            Code::AmbiguousConstructor => b"TY-3",
            Code::WrongQualifiedSort => b"TY-4",
            Code::LiteralWithoutSort => b"TY-5",
            Code::WrongTermSort => b"TY-6",
            Code::WrongIndex => b"TY-7",
            Code::AppliedVariable => b"TY-8",
            Code::WrongNamedTerm => b"TY-9",
            Code::WrongParameterCount => b"DT-1",
            Code::NotWellFounded => b"DT-2",
            Code::DatatypeNameInUse => b"DT-3",
            Code::MatchOnNonDatatype => b"MA-1",
            Code::UnknownConstructor => b"MA-2",
            Code::WrongPatternArity => b"MA-3",
            Code::UncoveredConstructor => b"MA-4",
            Code::WrongBranchSort => b"MA-5",
            Code::QuantifierOutsideLogic => b"FR-1",
            Code::SortOutsideLogic => b"FR-2",
            Code::FunctionOutsideLogic => b"FR-3",
            Code::NotLinear => b"FR-4",
            Code::NotDifference => b"FR-5",
            Code::ArrayOutsideLogic => b"FR-6",
            Code::DatatypeOutsideLogic => b"FR-7",
            Code::RecursionOutsideLogic => b"FR-8",
            Code::ReservedInfo => b"EX-1",
            Code::RecoveredTooLong => b"EX-2",
            Code::TooManyInstances => b"EX-3",
            Code::NotAnExport => b"EX-4",
            Code::UntranslatableSort => b"EX-5",
            Code::BooleanArgument => b"EX-6",
            Code::RecursiveDefinition => b"EX-7",
            Code::CheckUnderAssumptions => b"EX-8",
            Code::ChargeTooLarge => b"EX-9",
        }
    }
}
