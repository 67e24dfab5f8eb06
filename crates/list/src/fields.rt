// The bytes of a field, and the tags.
ghost use Rattle.std.specs.Prelude.{◌≡◌, ◌+◌, ◌<◌, ◌≤◌, length};
ghost use Rattle.list.specs.Tags.{word, known, len_of};
ghost use Rattle.list.specs.Fields.{headed, whole};
ghost use Rattle.list.specs.Waits.{waits};

// The number of two bytes at a place, high byte first.
pub(crate) fn word_at(bytes: &[u8], at: usize) -> u16
    requires { at + 1 < length bytes.now }
    ensures { result ≡ word bytes.now at }
{
    u16::from(bytes[at]) * 256 + u16::from(bytes[at + 1])
}

// The tags are 1 to 7, and 9. A tag stays a byte: its body's length is asked before it is known, and `left::opens` answers for any byte.
fn known(tag: u8) -> bool
    ensures { result ≡ known tag }
{
    if tag <= 7 { 1 <= tag } else { tag == 9 }
}

// A body's length.
pub(crate) fn body_length(tag: u8) -> usize
    ensures { (result ≡ len_of tag) × (result ≤ 10) }
{
    if tag <= 2 {
        return 10;
    }
    if tag <= 4 {
        return 3;
    }
    if tag == 5 {
        return 0;
    }
    if tag <= 7 { 4 } else { 1 }
}

// Whether the header at the head of some bytes is good: its tag known, its length its tag's.
fn headed(field: &[u8]) -> bool
    requires { 3 ≤ length field.now }
    ensures { result ≡ headed field.now }
{
    let tag = field[0];
    known(tag) & (word_at(field, 1) as usize == body_length(tag))
}

// Whether the field at the head of some bytes can be read: not cut short, and its header good.
pub(crate) fn whole(field: &[u8]) -> bool
    requires { 0 < length field.now }
    ensures { result ≡ whole field.now }
{
    let end = 3 + body_length(field[0]);
    if field.len() < end {
        return false;
    }
    headed(field)
}

// Whether more bytes may make a field of those at hand: no whole header, or a good one with less than its body.
pub fn waits(field: &[u8]) -> bool
    ensures { result ≡ waits field.now }
{
    if field.len() < 3 {
        return true;
    }
    let size = 3 + body_length(field[0]);
    headed(field) & (field.len() < size)
}
