// The library's calls, each on an output or a table and a report that hold no zero.
use support::lent;
use support::lent::Answer;

pub fn read(text: &[u8], grammar: u32, out: &mut [u8]) -> Answer {
    out.fill(lent::STALE_BYTE);
    Answer::of(|report| zullifern::zullifern_read(text, grammar, out, report))
}

pub fn label(text: &[u8], grammar: u32) -> Answer {
    Answer::of(|report| zullifern::zullifern_label(text, grammar, report))
}

pub fn index(text: &[u8], grammar: u32, numbers: &mut [u32]) -> Answer {
    numbers.fill(lent::STALE_NUMBER);
    Answer::of(|report| zullifern::zullifern_index(text, grammar, numbers, report))
}

pub fn write(label: &[u8], data: &[u8], style: u32, out: &mut [u8]) -> Answer {
    out.fill(lent::STALE_BYTE);
    Answer::of(|report| zullifern::zullifern_write(label, data, style, out, report))
}
