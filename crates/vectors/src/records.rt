// Whole records by themselves, under the house edition.
use record::{Class, House, classify};

// What a record is found to be.
#[derive(Clone, Copy, Debug, PartialEq, Eq)]
enum Sort {
    BadCode,
    Core,
    // a core record that breaks its layout
    Misfit,
    Rider,
    IllFormedRider,
    Unknown,
}

fn sort_of(class: Class) -> Sort {
    match class {
        Class::BadCode => Sort::BadCode,
        Class::Core(_, Ok(_)) => Sort::Core,
        Class::Core(_, Err(_)) => Sort::Misfit,
        Class::Rider(rider) if rider.formed => Sort::Rider,
        Class::Rider(_) => Sort::IllFormedRider,
        Class::Unknown => Sort::Unknown,
    }
}

const RECORDS: [([u8; 80], Sort); 67] = [
    (
        *b"01BGMAX               0120310402081500000000P                                   ",
        Sort::Core,
    ),
    (
        *b"01BGMAX              x0120310402081500000000P                                   ",
        Sort::Misfit,
    ),
    (
        *b"01BGMAX               x120310402081500000000P                                   ",
        Sort::Misfit,
    ),
    (
        *b"01BGMAX               0120310402241500000000P                                   ",
        Sort::Misfit,
    ),
    (
        *b"01BGMAX               0120310402231500000000P                                   ",
        Sort::Core,
    ),
    (
        *b"01BGMAX               0120310402086000000000P                                   ",
        Sort::Misfit,
    ),
    (
        *b"01BGMAX               0120310402081560000000P                                   ",
        Sort::Misfit,
    ),
    (
        *b"01BGMAX               0120310402085959000000P                                   ",
        Sort::Core,
    ),
    (
        *b"01BGMAX               0120310229081500000000P                                   ",
        Sort::Misfit,
    ),
    (
        *b"01BGMAX               0120320229081500000000P                                   ",
        Sort::Core,
    ),
    (
        *b"01BGMAX               0120310402081500000000T                                   ",
        Sort::Core,
    ),
    (
        *b"01BGMAX               0120310402081500000000Q                                   ",
        Sort::Misfit,
    ),
    (
        *b"01BGMAX               0120310402081500000000Preserve is not judged              ",
        Sort::Core,
    ),
    (
        *b"050000004711          SEK                                                       ",
        Sort::Core,
    ),
    (
        *b"0500000047110000000900SEK                                                       ",
        Sort::Core,
    ),
    (
        *b"050000004711000000090 SEK                                                       ",
        Sort::Misfit,
    ),
    (
        *b"050000004711          EUR                                                       ",
        Sort::Core,
    ),
    (
        *b"050000004711          USD                                                       ",
        Sort::Misfit,
    ),
    (
        *b"05000000471x          SEK                                                       ",
        Sort::Misfit,
    ),
    (
        *b"050000004711          SEKx                                                      ",
        Sort::Core,
    ),
    (
        *b"200000000815                     1230000000000000125000210000000000170          ",
        Sort::Core,
    ),
    (
        *b"200000000815                     1230000010000000125000210000000000170          ",
        Sort::Misfit,
    ),
    (
        *b"200000000815                     1230000009999999999999210000000000170          ",
        Sort::Core,
    ),
    (
        *b"200000000815                     1230000010000000125000210000000000170          ",
        Sort::Misfit,
    ),
    (
        *b"200000000815                     1230000000000000125000610000000000170          ",
        Sort::Misfit,
    ),
    (
        *b"200000000815                     12300000000000001250002x0000000000170          ",
        Sort::Misfit,
    ),
    (
        *b"200000000815                     123000000000000012500021A000000000170          ",
        Sort::Misfit,
    ),
    (
        *b"200000000815                     123000000000000012500021000000000017           ",
        Sort::Misfit,
    ),
    (
        *b"200000000815                     1230000000000000125000210000000000170x         ",
        Sort::Core,
    ),
    (
        *b"210000000815                     12300000000000001250002100000000001700         ",
        Sort::Core,
    ),
    (
        *b"210000000815                     12300000000000001250002100000000001702         ",
        Sort::Core,
    ),
    (
        *b"210000000815                     12300000000000001250002100000000001703         ",
        Sort::Misfit,
    ),
    (
        *b"210000000815                     12300000000000001250002100000000001701x        ",
        Sort::Core,
    ),
    (
        *b"220000000815                     1230000000000000125000210000000000170          ",
        Sort::Core,
    ),
    (
        *b"230000000815credit                   000000000000000005410000000000170         x",
        Sort::Core,
    ),
    (
        *b"220000000815                         000000000000000005010000000000170          ",
        Sort::Misfit,
    ),
    (
        *b"220000000815credit                   000000000000000005310000000000170          ",
        Sort::Misfit,
    ),
    (
        *b"220000000815credit                   000000000000000005510000000000170          ",
        Sort::Core,
    ),
    (
        *b"25text                                                                          ",
        Sort::Core,
    ),
    (
        *b"26name                                                                          ",
        Sort::Core,
    ),
    (
        *b"27street                                                                        ",
        Sort::Core,
    ),
    (
        *b"28town                                                                          ",
        Sort::Core,
    ),
    (
        *b"29000000000123                                                                  ",
        Sort::Core,
    ),
    (
        *b"2900000000012                                                                   ",
        Sort::Misfit,
    ),
    (
        *b"15000000000000000000000000000000000002031040200000000000000000125000SEK00000001K",
        Sort::Core,
    ),
    (
        *b"15000000000000000000000000000000000002031040200000000000000000125000SEK00000001D",
        Sort::Core,
    ),
    (
        *b"15000000000000000000000000000000000002031040200000000000000000125000SEK00000001S",
        Sort::Core,
    ),
    (
        *b"15000000000000000000000000000000000002031040200000000000000000125000SEK00000001 ",
        Sort::Core,
    ),
    (
        *b"15000000000000000000000000000000000002031040200000000000000000125000SEK00000001X",
        Sort::Misfit,
    ),
    (
        *b"15000000000000000000000000000000000002031022900000000000000000125000SEK00000001 ",
        Sort::Misfit,
    ),
    (
        *b"15000000000000000000000000000000000002032022900000000000000000125000SEK00000001 ",
        Sort::Core,
    ),
    (
        *b"15000000000000000000000000000000000002031040200000999999999999999999SEK00000001 ",
        Sort::Core,
    ),
    (
        *b"15000000000000000000000000000000000002031040200000000000000000125000EUR00000001 ",
        Sort::Core,
    ),
    (
        *b"15000000000000000000000000000000000002031040200000000000000000125000eur00000001 ",
        Sort::Misfit,
    ),
    (
        *b"15 00000000000000000000000000000000002031040200000000000000000125000SEK00000001 ",
        Sort::Misfit,
    ),
    (
        *b"1500000000000000000000000000000000000203104020000x000000000000125000SEK00000001 ",
        Sort::Misfit,
    ),
    (
        *b"15000000000000000000000000000000000002031040200000000000000000125000SEK0000000x ",
        Sort::Misfit,
    ),
    (
        *b"7000000001000000000000000000000001                                              ",
        Sort::Core,
    ),
    (
        *b"700000000100000000000000000000000                                               ",
        Sort::Misfit,
    ),
    (
        *b"7000000001000000000000000000000001x                                             ",
        Sort::Core,
    ),
    (
        *b"4020310402 note                                                                 ",
        Sort::Rider,
    ),
    (
        *b"4020310229 note                                                                 ",
        Sort::IllFormedRider,
    ),
    (
        *b"410000000815                                                                    ",
        Sort::Rider,
    ),
    (
        *b"41000000081x                                                                    ",
        Sort::IllFormedRider,
    ),
    (
        *b"77                                                                              ",
        Sort::Unknown,
    ),
    (
        *b"7                                                                               ",
        Sort::BadCode,
    ),
    (
        *b"x7                                                                              ",
        Sort::BadCode,
    ),
];

fn under_house(line: &[u8; 80]) -> Sort {
    sort_of(classify(line, &House))
}

#[test]
fn records(rt: HostRuntime) {
    for (line, sort) in RECORDS {
        assert_eq!(rt; under_house(&line), sort);
    }
}
