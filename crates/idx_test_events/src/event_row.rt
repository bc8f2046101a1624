//! The rows that are events.
use idx_events::Event;

/// The event of a word and its numbers, if there is one.
pub fn event_of(word: &str, numbers: &[u64]) -> Option<Event> {
    match numbers {
        [first] => event_of_one(word, *first),
        [first, second] => event_of_two(word, *first, *second),
        [time, revision, file] => match word {
            "write" => Some(Event::Write {
                time: *time,
                revision: *revision,
                file: *file,
            }),
            _ => None,
        },
        [time, revision, third, fourth] => event_of_four(word, *time, *revision, *third, *fourth),
        _ => None,
    }
}

fn event_of_one(word: &str, number: u64) -> Option<Event> {
    match word {
        "look" => Some(Event::Look { query: number }),
        "fill" => Some(Event::Fill { query: number }),
        "answer" => Some(Event::Answer { query: number }),
        "evict" => Some(Event::Evict { count: number }),
        _ => None,
    }
}

fn event_of_two(word: &str, first: u64, second: u64) -> Option<Event> {
    match word {
        "publish" => Some(Event::Publish {
            time: first,
            revision: second,
        }),
        "abandon" => Some(Event::Abandon {
            time: first,
            revision: second,
        }),
        "read" => Some(Event::Read {
            query: first,
            block: second,
        }),
        _ => None,
    }
}

fn event_of_four(word: &str, time: u64, revision: u64, third: u64, fourth: u64) -> Option<Event> {
    match word {
        "give" => Some(Event::Give {
            time,
            revision,
            rank: third,
            piece: fourth,
        }),
        "ship" => Some(Event::Ship {
            time,
            revision,
            piece: third,
            file: fourth,
        }),
        _ => None,
    }
}
