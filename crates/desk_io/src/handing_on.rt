//! What a steady runtime hands on as it is: all but what it prints.
ghost use Rattle.std.specs.Prelude.{◌≡◌, ◌+◌, IfOk, string_len};

use crate::steady::Steady;
use std::alloc::{Alloc, Allocator};
use std::fs::{Metadata, OpenOptions, Permissions};
use std::io::{Lines, Result};
use std::rt::Files;
use std::sync::Wait;
use std::thread::Threads;
use std::time::{Clock, Duration};

impl<R: Alloc, E> Alloc for Steady<'_, R, E> {
    type A = R::A;

    fn alloc(&self) -> R::A {
        self.rt.alloc()
    }
}

impl<R: Clock, E> Clock for Steady<'_, R, E> {
    fn monotonic(&self) -> Result<Duration> {
        self.rt.monotonic()
    }

    fn since_1970(&self) -> Result<Duration> {
        self.rt.since_1970()
    }

    fn sleep(&self, duration: Duration) {
        self.rt.sleep(duration)
    }
}

impl<R: Wait, E> Wait for Steady<'_, R, E> {}

impl<R: Threads, E> Threads for Steady<'_, R, E> {}

impl<R: Input, E> Input for Steady<'_, R, E> {
    type Reader = R::Reader;

    fn read_line<A: Allocator + Clone>(&self, line: &mut String<A>) -> Result<usize>
        ensures ok { IfOk result (λ n. string_len line.new ≡ string_len line.old + n) }
    {
        self.rt.read_line(line)
    }

    fn lines<A: Allocator>(&self, alloc: A) -> Lines<R::Reader, A> {
        self.rt.lines(alloc)
    }

    fn reader(&self) -> R::Reader {
        self.rt.reader()
    }
}

impl<R: Files, E> Files for Steady<'_, R, E> {
    type File = R::File;

    type Dir = R::Dir;

    fn open_file(&self, how: &OpenOptions, path: &str) -> Result<R::File> {
        self.rt.open_file(how, path)
    }

    fn open_dir(&self, path: &str) -> Result<R::Dir> {
        self.rt.open_dir(path)
    }

    fn metadata(&self, path: &str) -> Result<Metadata> {
        self.rt.metadata(path)
    }

    fn symlink_metadata(&self, path: &str) -> Result<Metadata> {
        self.rt.symlink_metadata(path)
    }

    fn copy(&self, from: &str, to: &str) -> Result<u64> {
        self.rt.copy(from, to)
    }

    fn rename(&self, from: &str, to: &str) -> Result<()> {
        self.rt.rename(from, to)
    }

    fn remove_file(&self, path: &str) -> Result<()> {
        self.rt.remove_file(path)
    }

    fn create_dir(&self, path: &str) -> Result<()> {
        self.rt.create_dir(path)
    }

    fn remove_dir(&self, path: &str) -> Result<()> {
        self.rt.remove_dir(path)
    }

    fn remove_dir_all<B: Allocator>(&self, alloc: B, path: &str) -> Result<()> {
        self.rt.remove_dir_all(alloc, path)
    }

    fn set_permissions(&self, path: &str, permissions: Permissions) -> Result<()> {
        self.rt.set_permissions(path, permissions)
    }
}
