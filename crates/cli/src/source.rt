// What a program reads: the file that is named, or standard input.
use std::alloc::Global;
use std::fs::File;
use std::io;
use std::io::{Read, Stdin};

#[derive(Drop)]
enum Input {
    Stdin(Stdin),
    File(File),
}

#[derive(Drop)]
pub struct Source {
    input: Input,
    failed: bool,
}

impl Source {
    pub(crate) fn open(rt: &HostRuntime, path: &Option<String>) -> io::Result<Source> {
        let input = match path {
            None => Input::Stdin(rt.stdin()),
            Some(path) => Input::File(File::open(rt, path.as_str())?),
        };
        Ok(Source {
            input,
            failed: false,
        })
    }

    // Whether the last read failed.
    pub(crate) fn failed(&self) -> bool {
        self.failed
    }

    // All that is left. Reading fails too where memory runs out.
    pub fn whole(&mut self, heap: Global) -> io::Result<Vec<u8>> {
        let mut bytes = Vec::new(heap);
        let result = self.read_to_end(&mut bytes);
        self.failed = result.is_err();
        result?;
        Ok(bytes)
    }
}

impl Read for Source {
    fn read(&mut self, buffer: &mut [u8]) -> io::Result<usize> {
        let result = match &mut self.input {
            Input::Stdin(stdin) => stdin.read(buffer),
            Input::File(file) => file.read(buffer),
        };
        self.failed = result.is_err();
        result
    }
}
