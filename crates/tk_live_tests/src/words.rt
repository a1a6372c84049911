//! The words and the files of the run of two monitors.
use std::alloc::Global;
use tk_input::MapFiles;

/// The words of the run, without the program's name.
const WORDS: [&str; 9] = [
    "live",
    "--k",
    "1",
    "--epsilon",
    "0",
    "--objects",
    "objects",
    "1=one",
    "2=two",
];

/// One more word, where there is the memory.
fn push_word(alloc: Global, words: &mut Vec<String>, word: &str) -> bool {
    match String::from_str(alloc, word) {
        Ok(word) => words.push(word).is_ok(),
        Err(_) => false,
    }
}

/// The words of the run.
pub fn words(alloc: Global) -> Option<Vec<String>> {
    let mut words = Vec::new(alloc);
    for word in WORDS {
        if !push_word(alloc, &mut words, word) {
            drop(words);
            return None;
        }
    }
    Some(words)
}

/// One more file, where there is the memory.
fn push_file(
    alloc: Global,
    files: &mut Vec<(String, Vec<u8>)>,
    name: &str,
    bytes: &[u8],
) -> Option<()> {
    let name = String::from_str(alloc, name).ok()?;
    let Ok(bytes) = Vec::from_slice(alloc, bytes) else {
        drop(name);
        return None;
    };
    files.push((name, bytes)).ok()
}

/// Its files: two objects, and a log of one change for each monitor.
pub fn files(alloc: Global) -> Option<MapFiles> {
    let mut files = Vec::new(alloc);
    let objects = push_file(alloc, &mut files, "objects", b"a\nb\n");
    let one = push_file(alloc, &mut files, "one", b"a,5\n");
    let two = push_file(alloc, &mut files, "two", b"b,3\n");
    match (objects, one, two) {
        (Some(()), Some(()), Some(())) => Some(MapFiles::new(alloc, files, Vec::new(alloc))),
        _ => {
            drop(files);
            None
        }
    }
}
