// How answers are printed.
use builder::Built;
use refusals::Fault;
use std::io;

// How many numbers or bytes a line has at most.
const MOST: usize = 16;

// Prints items, each in its own way, or that there are none; of many the first and the last.
fn print_items<R: Print, T: Copy, F: Fn(&R, T) -> io::Result<()>>(
    rt: &R,
    name: &str,
    items: &[T],
    print_item: F,
) -> io::Result<()>
    requires { F.IsAlwaysCallable print_item }
{
    match items {
        [] => print!(rt; ", no {name}"),
        [first, .., last] if MOST < items.len() => {
            print!(rt; ", {name}")?;
            print_item(rt, *first)?;
            print!(rt; " ..")?;
            print_item(rt, *last)
        }
        _ => {
            print!(rt; ", {name}")?;
            for item in items {
                print_item(rt, *item)?;
            }
            Ok(())
        }
    }
}

// Prints what a build answers.
pub fn print_built<R: Print>(
    rt: &R,
    answer: Result<Built, Fault>,
    image: &[u8],
    list: &[i64],
) -> io::Result<()> {
    let built = match answer {
        Ok(built) => built,
        Err(fault) => return print!(rt; "{fault}"),
    };
    let Built {
        start,
        end,
        numbers,
        passes,
    } = built;
    print!(rt; "finished {start:04X} {end:04X}, passes {passes}")?;
    let numbers = list.get(..numbers).unwrap_or(list);
    print_items(rt, "numbers", numbers, |rt, number| print!(rt; " {number}"))?;
    let bytes = image.get(start..end).unwrap_or(&[]);
    print_items(rt, "bytes", bytes, |rt, byte| print!(rt; " {byte:02X}"))
}
