// Runs the reader over the stored PDUs of standard input, one to a line: a name, a colon, and the octets in hexadecimal, each
// after a space. Prints each name with the number that the reader gives, 0 where it accepts. PDUs of MMRP have names that start
// with its four letters, small ones.
#![tactic(auto)]

ghost use Rattle.std.specs.Prelude.{◌≤◌, length};

use model::refusal;

// The four letters.
const MMRP: &[u8] = b"mmrp";

// The value of a hexadecimal digit; 0 for any other character.
fn digit(c: u8) -> u8
    ensures { result ≤ 15 }
{
    match c {
        b'0'..=b'9' => c - b'0',
        b'A'..=b'F' => c - b'A' + 10,
        _ => 0,
    }
}

// The octets that a text gives, put into out: how many there are.
// Not inlined, since the compiler would step this loop's places in the search for the colon too, at each octet of a remark.
#[inline(never)]
fn octets_of(text: &[u8], out: &mut [u8]) -> usize
    ensures { result ≤ length out.old }
{
    let count = out.len().min(text.len() / 3);
    for i in 0..count {
        out[i] = digit(text[3 * i + 1]) * 16 + digit(text[3 * i + 2]);
    }
    count
}

// The number that the reader gives: that of MMRP, or that of MSRP.
fn number_of(name: &[u8], pdu: &[u8]) -> u8 {
    let read = if name.starts_with(MMRP) {
        mmrpdu::check(pdu)
    } else {
        msrpdu::check(pdu)
    };
    refusal::number(read)
}

// Writes octets; those that cannot be written are left out.
fn write(rt: &HostRuntime, octets: &[u8]) {
    let _ = rt.write_all(octets);
}

// A stored PDU's name, and the number that the reader gives. A line without a colon is a remark.
fn show(rt: &HostRuntime, line: &[u8]) {
    let Some(colon) = line.iter().position(|octet| *octet == b':') else {
        return;
    };
    let mut pdu = [0u8; 1600];
    let n = octets_of(&line[colon + 1..], &mut pdu);
    let number = number_of(&line[..colon], &pdu[..n]);
    write(rt, &line[..colon]);
    write(rt, b": ");
    let _ = rt.println(number);
}

fn show_all(rt: &HostRuntime, stored: &[u8]) {
    for line in stored.split(|octet| *octet == b'\n') {
        show(rt, line);
    }
}

fn main(rt: HostRuntime) {
    let mut text = io::large_buffer();
    // standard input, to its end or till the room is full; a read that fails counts as the end
    let n = io::read_full(0, &mut text);
    show_all(&rt, &text[..n]);
}
