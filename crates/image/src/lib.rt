// The pool image: a pool as bytes, in either byte order.
#![tactic(auto)]

ghost use Rattle.std.specs.Prelude.{◌≡◌, true, ◌++◌, ◌+◌, ◌*◌, ◌≤◌, ◌<◌, length, leb};
ghost use Rattle.std.proofs.lemmas.List.Edits.{sets};
ghost use Rattle.search.specs.Search.{every_below};
ghost use Rattle.refusal.specs.Numbers.{answer_of};
ghost use Rattle.pool.specs.Pool.{opened_by};
ghost use Rattle.settings.specs.Settings.{one_frame, settings_bytes};
ghost use Rattle.entry.specs.Run.{run_of};
ghost use Rattle.entry.specs.Entry.{entry_bytes};
ghost use Rattle.image.specs.Layout.{image_header, image_length, used_at, pool_to, pool_at, used_in, front_bytes, back_bytes, header_bytes, encode_pool};
ghost use Rattle.image.specs.Image.{layout_refusal, header_zeros, entry_zero, entry_held, content_refusal, held_refusal_in, held_refusal, order_of, pool_of, held_of, image_of, saving_refusal, SavedTo};

use entry::ENTRY_LENGTH;
use pool::{Frame, Pool, Unopened};
use refusal::Refusal;
use word::{Order, Word};

pub const EDITION: u16 = 1;

pub const HEADER_LENGTH: usize = 64;

// The bytes of the longest image that holds a pool.
pub const BYTE_LIMIT: usize = HEADER_LENGTH + ENTRY_LENGTH * 128;

// What one pass over the entries finds.
#[derive(Clone, Copy)]
struct Survey {
    pub zeros: bool,
    pub fits: bool,
}

// Refusals 3 and 5.
fn check_layout(bytes: &[u8], order: Order) -> Result<(), Refusal>
    requires { image_header ≤ length bytes.now }
    ensures { answer_of result ≡ layout_refusal order bytes.now }
{
    let edition = u16::get(bytes, 4, order);
    let used = u32::get(bytes, 8, order) as usize;
    let offset = u32::get(bytes, 12, order);
    let entry = u32::get(bytes, 16, order);
    let long = u32::get(bytes, 20, order);
    let size = HEADER_LENGTH + ENTRY_LENGTH * used;
    let lengths = (offset as usize == HEADER_LENGTH)
        & ((entry as usize == ENTRY_LENGTH) & ((long as usize == size) & (bytes.len() == size)));
    refusal::demand(edition == EDITION, Refusal::OtherEdition)?;
    refusal::demand(lengths, Refusal::WrongLength)
}

// Whether the zero fields of the header are zero.
fn header_zeros(bytes: &[u8], order: Order) -> bool
    requires { image_header ≤ length bytes.now }
    ensures { result ≡ header_zeros order bytes.now }
{
    (u16::get(bytes, 6, order) == 0)
        & ((u32::get(bytes, 44, order) == 0)
            & ((u16::get(bytes, 54, order) == 0) & (u32::get(bytes, 60, order) == 0)))
}

// One pass over the first n entries.
fn survey_of(bytes: &[u8], order: Order, n: usize) -> Survey
    requires { (n < 4294967296) × (image_length n ≤ length bytes.now) }
    ensures { (result.zeros ≡ every_below (entry_zero order bytes.now) n) × (result.fits ≡ every_below (entry_held order bytes.now) n) }
{
    let mut zeros = true;
    let mut fits = true;
    for i in 0..n {
        let at = HEADER_LENGTH + ENTRY_LENGTH * i;
        zeros = zeros & entry::zero_right(bytes, at, order);
        fits = fits & entry::fits(bytes, at, order);
    }
    Survey { zeros, fits }
}

// Refusals 6 and 14, of an image whose lengths are right.
fn check_content(bytes: &[u8], order: Order) -> Result<(), Refusal>
    requires { length bytes.now ≡ image_length (used_at order bytes.now) }
    ensures { answer_of result ≡ content_refusal order bytes.now }
{
    let used = u32::get(bytes, 8, order) as usize;
    let zeros = header_zeros(bytes, order);
    let found = survey_of(bytes, order, used);
    refusal::demand(zeros & found.zeros, Refusal::BadField)?;
    refusal::demand((used <= 128) & found.fits, Refusal::NotSound)
}

// Refusals 3 to 14, but for soundness.
fn check_ordered(bytes: &[u8], order: Order) -> Result<(), Refusal>
    requires { image_header ≤ length bytes.now }
    ensures { answer_of result ≡ held_refusal_in order bytes.now }
{
    check_layout(bytes, order)?;
    check_content(bytes, order)
}

// Refusals 1 to 14, but for soundness.
fn check_held(bytes: &[u8]) -> Result<(), Refusal>
    ensures { answer_of result ≡ held_refusal bytes.now }
{
    if bytes.len() < HEADER_LENGTH {
        return Err(Refusal::TooShort);
    }
    match trace::mark_of(bytes) {
        Some(order) => check_ordered(bytes, order),
        None => Err(Refusal::UnknownMark),
    }
}

// The order of an image, or of a trace, by its mark; without a mark it has no meaning.
pub fn order_of(bytes: &[u8]) -> Order
    ensures { result ≡ order_of bytes.now }
{
    if bytes.len() < 4 {
        return Order::High;
    }
    let m = trace::mark_of(bytes);
    match m {
        Some(order) => order,
        None => Order::High,
    }
}

// The pool of the first u entries.
fn pool_to(bytes: &[u8], order: Order, used: usize) -> Pool
    requires { (used ≤ 128) × (image_length used ≤ length bytes.now) × (every_below (entry_held order bytes.now) used ≡ true) }
    ensures { result ≡ pool_to order bytes.now used }
{
    let empty = pool::empty_frame();
    let mut frames = [empty; 128];
    let mut access = [0u32; 1024];
    let mut write = [0u32; 512];
    for i in 0..used {
        let at = HEADER_LENGTH + ENTRY_LENGTH * i;
        frames[i] = entry::frame(bytes, at, order);
        entry::read_log(
            bytes,
            at + entry::ACCESS_PLACE,
            order,
            &mut access,
            i * 8,
            8,
        );
        entry::read_log(bytes, at + entry::WRITE_PLACE, order, &mut write, i * 4, 4);
    }
    let settings = settings::read(bytes, trace::SETTINGS_PLACE, order);
    Pool {
        settings,
        k: u32::get(bytes, 48, order),
        hand: u16::get(bytes, 52, order),
        sampler: u32::get(bytes, 56, order),
        frames,
        access,
        write,
    }
}

// The pool that an image holds, sound or not; where it is refused, a pool of one frame.
pub fn held(bytes: &[u8]) -> Result<Pool, Unopened>
    ensures { opened_by result ≡ held_of bytes.now }
{
    check_held(bytes)?;
    let order = order_of(bytes);
    let used = u32::get(bytes, 8, order) as usize;
    Ok(pool_to(bytes, order, used))
}

// The sound pool that an image holds; where it is refused, a pool of one frame.
pub fn read(bytes: &[u8]) -> Result<Pool, Unopened>
    ensures { opened_by result ≡ image_of bytes.now }
{
    let whole = held(bytes)?;
    pool::check(&whole)?;
    Ok(whole)
}

// How many frames are in use.
pub fn used_frames(p: Pool) -> u32
    ensures { (result ≡ used_in p) × (result ≤ 128) }
{
    p.frames.iter().filter(|fr| fr.used).count() as u32
}

// The first 24 bytes of the header.
fn put_front(out: &mut [u8], order: Order, used: u32)
    requires { (image_header ≤ length out.old) × (used ≤ 128) }
    ensures { out.new ≡ sets out.old 0 (front_bytes order used) }
{
    fields::put_mark(out, order);
    u16::put(out, 4, order, EDITION);
    u16::put(out, 6, order, 0);
    u32::put(out, 8, order, used);
    u32::put(out, 12, order, HEADER_LENGTH as u32);
    u32::put(out, 16, order, ENTRY_LENGTH as u32);
    u32::put(
        out,
        20,
        order,
        (HEADER_LENGTH + ENTRY_LENGTH * (used as usize)) as u32,
    );
}

// What the header has after the settings.
fn put_back(out: &mut [u8], order: Order, k: u32, hand: u16, sampler: u32)
    requires { image_header ≤ length out.old }
    ensures { out.new ≡ sets out.old 44 (back_bytes order k hand sampler) }
{
    u32::put(out, 44, order, 0);
    u32::put(out, 48, order, k);
    u16::put(out, 52, order, hand);
    u16::put(out, 54, order, 0);
    u32::put(out, 56, order, sampler);
    u32::put(out, 60, order, 0);
}

// The header, in three runs.
fn put_header(out: &mut [u8], order: Order, p: Pool, used: u32)
    requires { (image_header ≤ length out.old) × (used ≤ 128) }
    ensures { out.new ≡ sets out.old 0 (header_bytes order p used) }
{
    let settings = p.settings;
    put_front(out, order, used);
    settings::put(out, trace::SETTINGS_PLACE, order, settings);
    put_back(out, order, p.k, p.hand, p.sampler);
}

// The entries of the first n frames, at their places.
fn put_entries(out: &mut [u8], order: Order, p: Pool, n: usize)
    requires { (n ≤ 128) × (image_length n ≤ length out.old) }
    ensures { out.new ≡ sets out.old image_header (run_of (entry_bytes order p) n) }
{
    for i in 0..n {
        let at = HEADER_LENGTH + ENTRY_LENGTH * i;
        let fr = p.frames[i];
        entry::put_fields(out, at, order, fr);
        entry::put_log(out, at + entry::ACCESS_PLACE, order, &p.access, i * 8, 8);
        entry::put_log(out, at + entry::WRITE_PLACE, order, &p.write, i * 4, 4);
    }
}

// A whole image, where there is room for it.
fn put_image(p: Pool, order: Order, used: u32, out: &mut [u8])
    requires { (used ≡ used_in p) × (used ≤ 128) × (image_length used ≤ length out.old) }
    ensures { out.new ≡ sets out.old 0 (encode_pool order p) }
{
    put_header(out, order, p, used);
    put_entries(out, order, p, used as usize);
}

// The image of a sound pool at the front of `out`; where it is refused nothing is stored.
pub fn write(pool: Pool, order: Order, out: &mut [u8]) -> Result<(), Refusal>
    ensures { SavedTo pool order out.old (answer_of result) out.new }
{
    pool::check(&pool)?;
    let used = used_frames(pool);
    if out.len() < HEADER_LENGTH + ENTRY_LENGTH * (used as usize) {
        return Err(Refusal::NoRoom);
    }
    put_image(pool, order, used, out);
    Ok(())
}
