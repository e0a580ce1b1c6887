// The fields of a header and of a record, stored at their places.
#![tactic(auto)]

ghost use Rattle.std.specs.Prelude.{◌≡◌, ◌+◌, ◌≤◌, length};
ghost use Rattle.std.proofs.lemmas.List.Edits.{sets};
ghost use Rattle.trace.specs.Layout.{record_limit, header_length, record_length};
ghost use Rattle.trace.specs.Encode.{mark_bytes, front_bytes, header_bytes, record_bytes};

use settings::Settings;
use trace::{HEADER_LENGTH, RECORD_LENGTH};
use word::{Order, Word};

pub fn put_mark(out: &mut [u8], order: Order)
    requires { 4 ≤ length out.old }
    ensures { out.new ≡ sets out.old 0 (mark_bytes order) }
{
    match order {
        Order::High => out[..4].copy_from_slice(b"\x01\x02\x03\x04"),
        Order::Low => out[..4].copy_from_slice(b"\x04\x03\x02\x01"),
    }
}

// The first 24 bytes of the header. An image has other numbers in its own.
fn put_counts(out: &mut [u8], order: Order, n: u32, writes: u32)
    requires { (header_length ≤ length out.old) × (n ≤ record_limit) }
    ensures { out.new ≡ sets out.old 0 (front_bytes order n writes) }
{
    put_mark(out, order);
    u16::put(out, 4, order, trace::EDITION);
    u16::put(out, 6, order, 0);
    u32::put(out, 8, order, n);
    u32::put(out, 12, order, HEADER_LENGTH as u32);
    u32::put(out, 16, order, writes);
    u32::put(
        out,
        20,
        order,
        (HEADER_LENGTH + RECORD_LENGTH * (n as usize)) as u32,
    );
}

pub fn put_header(out: &mut [u8], order: Order, settings: Settings, n: u32, writes: u32)
    requires { (header_length ≤ length out.old) × (n ≤ record_limit) }
    ensures { out.new ≡ sets out.old 0 (header_bytes order settings n writes) }
{
    put_counts(out, order, n, writes);
    settings::put(out, trace::SETTINGS_PLACE, order, settings);
    u32::put(out, 44, order, 0);
}

pub fn put_record(out: &mut [u8], at: usize, order: Order, page: u32, kind: u16)
    requires { at + record_length ≤ length out.old }
    ensures { out.new ≡ sets out.old at (record_bytes order page kind) }
{
    u32::put(out, at, order, page);
    u16::put(out, at + 4, order, kind);
    u16::put(out, at + 6, order, 0);
}
