//! How the texts of explanations relate to what is legal.

ghost use Rattle.std.specs.Prelude.{Some, Option, IfSome};
ghost use Rattle.isa.specs.Privilege.{IsPrivilege};
ghost use Rattle.retire.specs.Events.{privilege};
ghost use Rattle.retire.specs.declared.event.Event.{Event};
ghost use Rattle.rvclass.specs.Words.{Word, Words};
ghost use Rattle.legalpath.specs.Right.{IsTypeOf, MayRetireAt};
ghost use Rattle.legalpath.specs.Step.{MayHavePrivilegeAfter};
ghost use Rattle.explaining.specs.Explanation.{word_privileges_text, word_types_text};
ghost use Rattle.explaining.specs.Following.{privileges_text};
ghost use Rattle.explaining.specs.Listed.{ListsJust};

/// The texts list just what is legal: the types that a word's retirement may have, the privilege levels that it may
/// retire at, and the levels that may follow the event before, whose own privilege is a level.
pub fn texts_list_what_is_legal()
    ensures types { (word : Word) → ListsJust (word_types_text (Some word)) (IsTypeOf word.0) }
    ensures levels { (word : Word) → ListsJust (word_privileges_text (Some word))
        (λ level. MayRetireAt word.0 level × IsPrivilege level) }
    ensures following { (words : Words) (before : Option Event)
        → IfSome before (λ event. IsPrivilege (privilege event))
        → ListsJust (privileges_text words before)
        (λ level. MayHavePrivilegeAfter words before level × IsPrivilege level) }
{}
