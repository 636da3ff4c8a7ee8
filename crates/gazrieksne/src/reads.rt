// The entry points of the reader.
ghost use Rattle.std.specs.Prelude.{◌≡◌};
ghost use Rattle.sheet.specs.Reading.{reading, number};
ghost use Rattle.gazrieksne.specs.Reads.{read_counts, service_of, service_flag, service_words, cabinet_of, cabinet_flag, cabinet_words, stream_of, stream_flag, stream_words, pair_of, pair_flag, pair_words};

// Group, services, cabinets, streams and barred pairs; the refusal's number, 0 for none.
#[unsafe(no_mangle)]
pub extern "C" fn gz_read(bytes: &[u8], counts: &mut [u64; 5]) -> u64
    ensures number { result ≡ number (reading bytes.now) }
    ensures counts { counts.new ≡ read_counts (reading bytes.now) }
{
    match sheet::read(bytes) {
        Ok(sheet) => {
            *counts = [
                0,
                sheet.services() as u64,
                sheet.cabinets() as u64,
                sheet.streams() as u64,
                sheet.pairs() as u64,
            ];
            0
        }
        Err(refusal) => {
            *counts = [refusal.group(), 0, 0, 0, 0];
            u64::from(refusal.number())
        }
    }
}

// 1 and the demand, or 0 and the record as it was.
#[unsafe(no_mangle)]
pub extern "C" fn gz_service(bytes: &[u8], number: usize, words: &mut [u64; 1]) -> u64
    ensures flag { result ≡ service_flag (service_of (reading bytes.now) bytes.now number) }
    ensures written { words.new ≡ service_words (service_of (reading bytes.now) bytes.now number) words.old }
{
    let Ok(sheet) = sheet::read(bytes) else {
        return 0;
    };
    let Some(k) = sheet.service(bytes, number) else {
        return 0;
    };
    *words = [k.demand];
    1
}

// 1 and the record's seven words, or 0 and the record as it was.
#[unsafe(no_mangle)]
pub extern "C" fn gz_cabinet(bytes: &[u8], number: usize, words: &mut [u64; 7]) -> u64
    ensures flag { result ≡ cabinet_flag (cabinet_of (reading bytes.now) bytes.now number) }
    ensures written { words.new ≡ cabinet_words (cabinet_of (reading bytes.now) bytes.now number) words.old }
{
    let Ok(sheet) = sheet::read(bytes) else {
        return 0;
    };
    let Some(k) = sheet.cabinet(bytes, number) else {
        return 0;
    };
    *words = [
        k.parent as u64,
        k.capacity,
        k.price,
        k.up_capacity,
        k.up_price,
        k.down_capacity,
        k.down_price,
    ];
    1
}

// 1 and the record's three words, or 0 and the record as it was.
#[unsafe(no_mangle)]
pub extern "C" fn gz_stream(bytes: &[u8], number: usize, words: &mut [u64; 3]) -> u64
    ensures flag { result ≡ stream_flag (stream_of (reading bytes.now) bytes.now number) }
    ensures written { words.new ≡ stream_words (stream_of (reading bytes.now) bytes.now number) words.old }
{
    let Ok(sheet) = sheet::read(bytes) else {
        return 0;
    };
    let Some(t) = sheet.stream(bytes, number) else {
        return 0;
    };
    *words = [t.from as u64, t.to as u64, t.demand];
    1
}

// 1 and the pair's two words, or 0 and the record as it was.
#[unsafe(no_mangle)]
pub extern "C" fn gz_barred(bytes: &[u8], number: usize, words: &mut [u64; 2]) -> u64
    ensures flag { result ≡ pair_flag (pair_of (reading bytes.now) bytes.now number) }
    ensures written { words.new ≡ pair_words (pair_of (reading bytes.now) bytes.now number) words.old }
{
    let Ok(sheet) = sheet::read(bytes) else {
        return 0;
    };
    let Some(p) = sheet.pair(bytes, number) else {
        return 0;
    };
    *words = [p.service as u64, p.cabinet as u64];
    1
}
