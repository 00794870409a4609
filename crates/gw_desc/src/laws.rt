//! Laws of descriptors: what is read, with which forms it is kept, and how a Local is filled. The contracts of
//! functions that do nothing.

ghost use Rattle.std.specs.Prelude.{◌≡◌, ℕ, false, List, decimal};
ghost use Rattle.gw_base.specs.Addresses.{IsAddress};
ghost use Rattle.gw_text.specs.Octets.{IsOctetsOf};
ghost use Rattle.gw_desc.specs.declared.descriptor.Descriptor.{Descriptor as DescriptorOf};
ghost use Rattle.gw_desc.specs.declared.descriptor.Property.{Property as PropertyOf};
ghost use Rattle.gw_desc.specs.declared.descriptor.Tail.{Tail as TailOf};
ghost use Rattle.gw_desc.specs.Fill.{filled, is_fillable, port_of};
ghost use Rattle.gw_desc.specs.FillSteps.{IsFilledOnce, IsPlain, IsReached};
ghost use Rattle.gw_desc.specs.Grammar.{SpellsDescriptor, SpellsProperty, SpellsTail};
ghost use Rattle.gw_desc.specs.KeptTexts.{HasKeptTexts, IsKeptOctets, IsKeptProperty, IsKeptTail};
ghost use Rattle.gw_desc.specs.Reading.{AfterDescriptor, AfterTail, descriptor_at, tail_at};
ghost use Rattle.gw_text.specs.Parts.{IsOne, ReadsEach, ReadsOnly};

/// Reading a descriptor takes a text of the grammar and nothing else, and each such text; it spells one descriptor.
pub fn descriptors_are_read()
    ensures only { ReadsOnly descriptor_at SpellsDescriptor }
    ensures each { ReadsEach descriptor_at SpellsDescriptor AfterDescriptor }
    ensures one { IsOne SpellsDescriptor }
{}

/// Reading a tail takes a text of the grammar and nothing else, and each such text; it spells one tail.
pub fn tails_are_read()
    ensures only { ReadsOnly tail_at SpellsTail }
    ensures each { ReadsEach tail_at SpellsTail AfterTail }
    ensures one { IsOne SpellsTail }
{}

/// What a descriptor spells is kept with its form: properties, tails and octets, alone and as a descriptor holds them.
pub fn kept_texts_have_their_forms()
    ensures property { (p : PropertyOf (List ℕ)) (text : List ℕ) → SpellsProperty p text → IsKeptProperty p }
    ensures tail { (t : TailOf (List ℕ)) (text : List ℕ) → SpellsTail t text → IsKeptTail t }
    ensures octets { (span body : List ℕ) → IsOctetsOf span body → IsKeptOctets span }
    ensures descriptor { (d : DescriptorOf) (text : List ℕ) → SpellsDescriptor d text → HasKeptTexts d }
{}

/// A Local is filled one `$` after the other: each step puts the address or the port in the place of one `$` that is a
/// field of its line, and no other byte changes, until no line has such a `$`; where none had one nothing changes.
/// Octets of which all is kept stay so at each step.
pub fn fills_go_step_by_step()
    ensures steps { (address : List ℕ) (slot stream : ℕ) (text : List ℕ) → IsReached (IsFilledOnce address (decimal (port_of slot stream))) text (filled address slot stream text) }
    ensures left { (address : List ℕ) (slot stream : ℕ) (text : List ℕ) → IsAddress address → is_fillable (filled address slot stream text) ≡ false }
    ensures none { (address : List ℕ) (slot stream : ℕ) (text : List ℕ) → is_fillable text ≡ false → filled address slot stream text ≡ text }
    ensures step_keeps { (address port old text : List ℕ) → IsPlain address → IsPlain port → IsFilledOnce address port old text → IsKeptOctets old → IsKeptOctets text }
    ensures keeps { (address : List ℕ) (slot stream : ℕ) (text : List ℕ) → IsAddress address → IsKeptOctets text → IsKeptOctets (filled address slot stream text) }
{}
