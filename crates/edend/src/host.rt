//! The process that the system runs.
ghost use Rattle.std.specs.Prelude.{IfOk};

use non_blocking::NonBlocking;
use std::alloc::Global;
use std::io;
use std::rt::{Env, Files, Stderr, Stdout};
use std::sync::Wait;
use world_script::{Process, Sources, System};

/// The words, the files and the streams of the system. What is printed can be written by a thread of its own.
#[derive(Drop)]
pub struct Host<'a, R> {
    pub system: System<'a, R>,
}

impl<R: Files + Input> Sources for Host<'_, R> {
    type Input = R::Reader;

    type File = R::File;

    fn input(&self) -> R::Reader {
        self.system.input()
    }

    fn open(&self, path: &str) -> io::Result<R::File> {
        self.system.open(path)
    }
}

impl<R: Files + Input + Env + AllocGlobal + Wait + Copy> Process for Host<'_, R> {
    type Output = NonBlocking<R, Stdout>;

    type Errors = NonBlocking<R, Stderr>;

    fn words(&self, alloc: Global) -> io::Result<Vec<String>> {
        self.system.words(alloc)
    }

    fn capacity(&self) -> usize {
        self.system.capacity()
    }

    fn output(&self) -> NonBlocking<R, Stdout> {
        NonBlocking::new(*self.system.host, self.system.output)
    }

    fn errors(&self) -> NonBlocking<R, Stderr> {
        NonBlocking::new(*self.system.host, self.system.errors)
    }
}
