//! Laws of the definitions, in the subject's own words. The functions do nothing; their clauses are the laws.

ghost use Rattle.std.specs.Prelude.{◌≡◌, Ok};
ghost use Rattle.std.specs.Str.Lines.{lines};
ghost use Rattle.rv_image_types.specs.declared.images.ImageParts.{ImageParts};
ghost use Rattle.rv_image_types.specs.declared.images.ImageVersion.TheVariants.{Two};
ghost use Rattle.rv_asm_lines.specs.Layout.{Layout as Laid, layout_of};
ghost use Rattle.rv_asm_lines.specs.Places.{IsPlaced, LabelsStay};
ghost use Rattle.rv_asm.specs.Directed.{IsDirected, PartsAddUp};
ghost use Rattle.rv_asm.specs.Holding.{DataHoldNumbers};
ghost use Rattle.rv_asm.specs.InParts.{StandInParts};
ghost use Rattle.rv_asm.specs.Reached.{TargetsAreReached};
ghost use Rattle.rv_asm.specs.Said.{said_from, said_in};
ghost use Rattle.rv_asm.specs.Source.{meaning};
ghost use Rattle.rv_asm.specs.Made.{AreGlobals, NamesFit};

/// Where the first pass finds no fault, its items are what the lines say, in order, each with its line's number: of a
/// line first its labels and then its statement.
pub fn items_are_those_of_lines(_source: &str)
    ensures { (s : Laid) → layout_of _source.now ≡ Ok s → said_in s.items ≡ said_from 1 (lines _source.now) }
{}

/// Where the first pass finds no fault, each label and each statement stands in the part that the last `.text` or `.data`
/// before it names, the first ones in the text; instructions in the text alone, and data but for words in the data part.
pub fn statements_stand_in_their_parts(_source: &str)
    ensures { (s : Laid) → layout_of _source.now ≡ Ok s → StandInParts s.items }
{}

/// Where the first pass finds no fault, the place of a label or a statement is the sum of the lengths of what
/// stands before it in its part, and the labels are those of the lines.
pub fn addresses_add_up(_source: &str)
    ensures { (s : Laid) → layout_of _source.now ≡ Ok s → IsPlaced s }
{}

/// A label stands where it stands whatever lines follow. So its address depends on them by the text's length alone:
/// that of a label of the data, which begins behind the text.
pub fn labels_stay()
    ensures { LabelsStay }
{}

/// The symbols of an image are the labels that `.globl` names, each once, in byte order, with their addresses.
pub fn symbols_are_those_of_globl(_source: &str)
    ensures { (s : Laid) (image : ImageParts) → layout_of _source.now ≡ Ok s → meaning _source.now ≡ Ok image
        → AreGlobals s image.symbols }
{}

/// Text and data of an image have just the bytes of their statements: four for each instruction, 1, 2, 4 or 8 for each
/// number, those of a string, as many zeros as are asked for, and a padding of fewer than its multiple.
pub fn parts_add_up(_source: &str)
    ensures { (s : Laid) (image : ImageParts) → layout_of _source.now ≡ Ok s → meaning _source.now ≡ Ok image
        → PartsAddUp s image }
{}

/// An image is what the directives of its source say: ranks, harts and memory, where harts begin, and the communicators
/// and links in the order of their lines.
pub fn images_are_directed(_source: &str)
    ensures { (s : Laid) (image : ImageParts) → layout_of _source.now ≡ Ok s → meaning _source.now ≡ Ok image
        → IsDirected s image }
{}

/// Every image of a source is of version 2.
pub fn images_are_of_version_two(_source: &str)
    ensures { (image : ImageParts) → meaning _source.now ≡ Ok image → image.version ≡ Two }
{}

/// A name of a source is one that a symbol may have, if it has at most 31 bytes.
pub fn short_names_may_be_symbols()
    ensures { NamesFit }
{}

/// A jump or a branch leads from its own address to the place that its target names: a label's address and the number
/// behind it, or so many bytes on. `li` leaves its number in its register, and `la` the address of its label.
pub fn targets_are_reached()
    ensures { TargetsAreReached }
{}

/// The bytes of data are those of its numbers and of the addresses of its labels, one behind the other, in two's complement
/// and the lowest first; those of a string, or zeros.
pub fn data_hold_numbers()
    ensures { DataHoldNumbers }
{}
