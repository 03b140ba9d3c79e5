// The C interface of picture files: include/imurraqi.h declares the same functions.
#![tactic(auto)]

ghost use Rattle.std.specs.Prelude.{◌≡◌, length};
ghost use Rattle.ppm_export.specs.Export.{export_answer, export_output, export_length};
ghost use Rattle.ppm_card.specs.Card.{import_length};
ghost use Rattle.ppm_import.specs.Import.{import_answer, import_card, import_packed};
ghost use Rattle.c_pictures.specs.Numbers.{picture_number};

use c_types::refused;
use refusal::Refusal;

// A picture's answer: its count of points, or how many bytes, or its refusal.
fn picture_number(answer: Result<u32, Refusal>) -> i64
    ensures { result ≡ picture_number answer }
{
    match answer {
        Ok(count) => count as i64,
        Err(refusal) => refused(refusal.number()),
    }
}

// Writes the picture file of a card, read at an edition, and its packed points. Answers the count of points.
#[unsafe(no_mangle)]
pub extern "C" fn imurraqi_ppm_export(
    card: &[u8],
    edition: u8,
    packed: &[u8],
    out: &mut [u8],
) -> i64
    ensures answer { result ≡ picture_number (export_answer card.now edition (length packed.now) (length out.old)) }
    ensures memory { out.new ≡ export_output card.now edition packed.now out.old }
{
    picture_number(ppm_export::export(card, edition, packed, out))
}

// How many bytes that file will have.
#[unsafe(no_mangle)]
pub extern "C" fn imurraqi_ppm_export_len(card: &[u8], edition: u8) -> i64
    ensures answer { result ≡ picture_number (export_length card.now edition) }
{
    picture_number(ppm_export::export_length(card, edition))
}

// Makes a closed card and packed points of a picture file. Answers the count of points.
#[unsafe(no_mangle)]
pub extern "C" fn imurraqi_ppm_import(
    ppm: &[u8],
    item: u64,
    primaries: u8,
    card: &mut [u8],
    packed: &mut [u8],
) -> i64
    ensures answer { result ≡ picture_number (import_answer ppm.now item primaries (length card.old) (length packed.old)) }
    ensures card { card.new ≡ import_card ppm.now item primaries card.old (length packed.old) }
    ensures packed { packed.new ≡ import_packed ppm.now item primaries (length card.old) packed.old }
{
    picture_number(ppm_import::import(ppm, item, primaries, card, packed))
}

// How many bytes of packed points there will be.
#[unsafe(no_mangle)]
pub extern "C" fn imurraqi_ppm_import_len(ppm: &[u8]) -> i64
    ensures answer { result ≡ picture_number (import_length ppm.now) }
{
    picture_number(ppm_import::import_length(ppm))
}
