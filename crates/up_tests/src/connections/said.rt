//! When a line about letting connections in is written. Times are in milliseconds.
use crate::same::expect_same;
use up_server::{Due, Entrance, Said, Want};

const FILES: Entrance = Entrance::Wanting(Want::Descriptors(24));

const ALL_FILES: Entrance = Entrance::Wanting(Want::Descriptors(23));

const MEMORY: Entrance = Entrance::Wanting(Want::Memory(12));

const THREADS: Entrance = Entrance::Wanting(Want::Threads);

const GONE: Entrance = Entrance::Gone(22);

/// Times at which the state is reported, and what must then be done.
type Times = &'static [(u64, Entrance, Due)];

/// A shortage is reported once, and when it is over.
const ONE_SHORTAGE: Times = &[
    (0, Entrance::Open, Due::Nothing),
    (5, FILES, Due::Say),
    (105, FILES, Due::Later),
    (5_000, ALL_FILES, Due::Later),
    (6_000, Entrance::Open, Due::Later),
    (6_999, Entrance::Open, Due::Later),
    (7_000, Entrance::Open, Due::Say),
    (7_001, Entrance::Open, Due::Nothing),
    (9_000, FILES, Due::Say),
];

/// Each kind of shortage is reported.
const EACH_KIND: Times = &[
    (0, FILES, Due::Say),
    (999, MEMORY, Due::Later),
    (1_000, MEMORY, Due::Say),
    (2_000, THREADS, Due::Say),
    (3_000, FILES, Due::Later),
    (3_100, MEMORY, Due::Later),
    (3_200, THREADS, Due::Later),
    (3_300, Entrance::Open, Due::Later),
    (4_300, Entrance::Open, Due::Say),
];

/// A shortage that comes and goes within a second isn't reported.
const SHORT: Times = &[
    (0, FILES, Due::Say),
    (100, Entrance::Open, Due::Later),
    (1_000, FILES, Due::Later),
    (1_001, Entrance::Open, Due::Later),
    (2_000, Entrance::Open, Due::Later),
    (2_001, Entrance::Open, Due::Say),
    (2_500, FILES, Due::Later),
    (2_600, Entrance::Open, Due::Nothing),
];

/// It is reported in its turn that the listener is gone.
const GONE_LATER: Times = &[
    (7, MEMORY, Due::Say),
    (8, GONE, Due::Later),
    (1_007, GONE, Due::Say),
];

#[test]
fn says_what_is_new_a_second_apart(rt: HostRuntime) {
    for times in [
        ONE_SHORTAGE,
        EACH_KIND,
        SHORT,
        &[(7, GONE, Due::Say)],
        GONE_LATER,
    ] {
        let mut said = Said::new();
        for (now, entrance, due) in times {
            expect_same(&rt, &(now, said.note(*entrance, *now)), &(now, *due));
        }
    }
}
