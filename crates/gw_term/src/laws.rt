//! Laws of a merge: the contracts of functions that do nothing.

ghost use Rattle.std.specs.Prelude.{◌≡◌, ℕ, List, Option as OptionOf, None, Some};
ghost use Rattle.std.specs.List.{All};
ghost use Rattle.gw_base.specs.Addresses.{IsAddress};
ghost use Rattle.gw_base.specs.declared.ids.CtxNum.{CtxNum as CtxNumOf};
ghost use Rattle.gw_base.specs.declared.command_words.Service.{Service as ServiceOf};
ghost use Rattle.gw_base.specs.declared.command_words.Rules.{Rules as RulesOf};
ghost use Rattle.gw_desc.specs.declared.descriptor.Descriptor.{Descriptor as DescriptorOf};
ghost use Rattle.gw_term.specs.declared.record.Termination.{Termination as Record};
ghost use Rattle.gw_desc.specs.KeptTexts.{HasKeptTexts};
ghost use Rattle.gw_reply.specs.KeptParts.{HasKeptReply, IsKeptFilled};
ghost use Rattle.gw_term.specs.Audit.{audit_parts};
ghost use Rattle.gw_term.specs.KeptRecords.{IsKeptRecord};
ghost use Rattle.gw_term.specs.Laws.{GoesByField, KeepsUnnamed};
ghost use Rattle.gw_term.specs.Lookups.{HasTooLong, IsFoundAfter};
ghost use Rattle.gw_term.specs.Merge.{filled_by, merged};
ghost use Rattle.gw_term.specs.Record.{placed, serviced, unset};

/// A merge goes field by field, and a stream that no descriptor names stays as it is.
pub fn merges_go_by_field()
    ensures fields { (rules : RulesOf) (descriptors : List DescriptorOf) (old new : Record) → merged rules descriptors old ≡ Some new → GoesByField rules descriptors old new }
    ensures stays { (rules : RulesOf) (descriptors : List DescriptorOf) (old new : Record) → merged rules descriptors old ≡ Some new → KeepsUnnamed descriptors old new }
{}

/// What is found in a record after a merge: in each place the last that the descriptors sent for it, else what was
/// there. Properties stay in their places, and a new one goes last. There is no merge only where a list would hold
/// more than 32.
pub fn look_ups_after_a_merge()
    ensures found { (rules : RulesOf) (descriptors : List DescriptorOf) (old new : Record) → merged rules descriptors old ≡ Some new → IsFoundAfter rules descriptors old new }
    ensures none { (rules : RulesOf) (descriptors : List DescriptorOf) (old : Record) → merged rules descriptors old ≡ None → HasTooLong descriptors old }
{}

/// Texts that are kept keep their forms through a merge, filled ones too, and so do the Locals that were filled; the
/// answer to an Audit has them too. They stay where the termination is elsewhere or in another service state; a new
/// one, and one that was reset, keeps none.
pub fn merges_keep_forms()
    ensures keeps { (rules : RulesOf) (descriptors : List DescriptorOf) (old new : Record) → IsAddress rules.media → All HasKeptTexts descriptors → IsKeptRecord old → merged rules descriptors old ≡ Some new → IsKeptRecord new }
    ensures filled { (rules : RulesOf) (descriptors : List DescriptorOf) (old : Record) → IsAddress rules.media → All HasKeptTexts descriptors → IsKeptRecord old → All IsKeptFilled (filled_by rules descriptors old) }
    ensures read_back { (words : List (List ℕ)) (r : Record) → IsKeptRecord r → All HasKeptReply (audit_parts words r) }
    ensures placed { (r : Record) (place : OptionOf CtxNumOf) → IsKeptRecord r → IsKeptRecord (placed r place) }
    ensures serviced { (r : Record) (service : ServiceOf) → IsKeptRecord r → IsKeptRecord (serviced r service) }
    ensures none { (place : OptionOf CtxNumOf) (service : ServiceOf) (slot : OptionOf ℕ) → IsKeptRecord (unset place service slot) }
{}
