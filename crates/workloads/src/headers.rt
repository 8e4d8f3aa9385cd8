// Headers measured, written and read.
ghost use Rattle.std.specs.Prelude.{◌≤◌, length};

use amqp::header::{Header, Transfer};
use amqp::tag::DeliveryTag;
use codec::compact::Compact;
use codec::encoder::{Encoder, measure};
use codec::wide::Wide;
use reader::reader::Reader;

// The first transfer of a delivery that was sent.
fn transfer(count: u32) -> Transfer {
    Transfer {
        handle: 0,
        delivery_id: Some(count),
        delivery_tag: Some(DeliveryTag::from_count(count)),
        message_format: Some(0),
        settled: Some(false),
        more: false,
        state: None,
        resume: false,
        aborted: false,
        batchable: false,
    }
}

fn measure_all<E: Encoder>(encoder: &E, rounds: u32) -> u64
    ensures { result ≤ rounds }
{
    let mut measured = 0;
    for count in 0..rounds {
        if measure(&mut transfer(count), encoder) > 0 {
            measured += 1;
        }
    }
    measured
}

fn write_all<E: Encoder>(encoder: &E, rounds: u32, out: &mut [u8]) -> u64
    ensures { result ≤ rounds }
{
    let mut written = 0;
    for count in 0..rounds {
        if encoder
            .write(&Header::Transfer(transfer(count)), out)
            .is_ok()
        {
            written += 1;
        }
    }
    written
}

fn read_all<R: Reader>(reader: &R, bytes: &[u8], size: usize) -> u64
    ensures { result ≤ length bytes.now }
{
    let headers = bytes.chunks(size.max(1));
    headers.filter(|header| reader.read(header).is_ok()).count() as u64
}

// Measures so many transfers: how many have a size.
#[unsafe(no_mangle)]
pub extern "C" fn dabberblue_work_measure(is_wide: bool, rounds: u32) -> u64
    ensures { result ≤ rounds }
{
    if is_wide {
        measure_all(&Wide, rounds)
    } else {
        measure_all(&Compact, rounds)
    }
}

// Writes so many headers, one over the other: how many found room.
#[unsafe(no_mangle)]
pub extern "C" fn dabberblue_work_write(is_wide: bool, rounds: u32, out: &mut [u8]) -> u64
    ensures { result ≤ rounds }
{
    if is_wide {
        write_all(&Wide, rounds, out)
    } else {
        write_all(&Compact, rounds, out)
    }
}

// Reads headers that stand one after the other, all of this size: how many are such.
#[unsafe(no_mangle)]
pub extern "C" fn dabberblue_work_read(is_wide: bool, bytes: &[u8], size: usize) -> u64
    ensures { result ≤ length bytes.now }
{
    if is_wide {
        read_all(&Wide, bytes, size)
    } else {
        read_all(&Compact, bytes, size)
    }
}
