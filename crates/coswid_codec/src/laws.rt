//! Laws of tags, and of payload and evidence by themselves. The functions do nothing: their
//! contracts are the laws.

ghost use Rattle.coswid_codec.specs.Laws.{NoFaultOrNoTag, OneTag, HasItemWhereSome, ReadHasItem, WrittenIsRead, ReadIsWritten, OneTagOneSpelling, BeginsOneTag, HasOneFault, NotBoth, TagOrFault, PayloadLaw, EvidenceLaw};

/// An item has no form fault exactly where some tag is read from it.
pub fn no_fault_where_some_tag()
    ensures tag { NoFaultOrNoTag }
{}

/// An item is read as one tag at most.
pub fn item_is_one_tag()
    ensures one { OneTag }
{}

/// Some item is one of a tag exactly where what the tag is written as is one.
pub fn has_item_where_some()
    ensures item { HasItemWhereSome }
{}

/// What is read has an item.
pub fn read_has_item()
    ensures item { ReadHasItem }
{}

/// What has an item is read from its canonical spelling, whatever follows.
pub fn written_is_read()
    ensures again { WrittenIsRead }
{}

/// What is read is written and read again, whatever follows.
pub fn read_is_written()
    ensures again { ReadIsWritten }
{}

/// Two spellings are read as one tag exactly where their canonical octets are equal.
pub fn one_tag_has_one_spelling()
    ensures one { OneTagOneSpelling }
{}

/// Octets begin with one tag, of that many octets, or have one fault, of CBOR or of form, and not
/// both.
pub fn octets_have_one_answer()
    ensures tag { BeginsOneTag }
    ensures fault { HasOneFault }
    ensures both { NotBoth }
    ensures some { TagOrFault }
{}

/// An item has no form fault exactly where some payload is read from it; it is read as one payload
/// at most, which is written and read again.
pub fn payload_is_read_and_written()
    ensures payload { PayloadLaw }
{}

/// The same of evidence.
pub fn evidence_is_read_and_written()
    ensures evidence { EvidenceLaw }
{}
