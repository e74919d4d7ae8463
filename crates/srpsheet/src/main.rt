// Prints a bridge's sheet: settings and records are read from standard input, and what crate sheets puts for them is written.
#![tactic(auto)]

fn main(rt: HostRuntime) {
    let mut input = io::large_buffer();
    let mut table = sheets::blank_table();
    let mut text = sheets::blank_text();
    // standard input, to its end or till the room is full; a read that fails counts as the end
    let n = io::read_full(0, &mut input);
    let end = sheets::put_sheet(&mut table, &input[..n], &mut text);
    // what cannot be written is left out
    let _ = rt.write_all(&text[0..end]);
}
