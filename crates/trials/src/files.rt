// The parts of a file, the printed lines, and a file read into a book.
use book::book::Book;
use book::places::Lent;
use lines::fault::{Malformed, NumberFault};
use lines::line::read_line;
use lines::number::number;
use lines::trailer::read_trailer;
use reckoning::claims::Claims;
use reckoning::grains::Grains;
use rendering::text::{TooFew, level_line, refusal_line};
use rendering::writing::write;
use std::test::Fail;
use tariff::reading::read;

#[test]
fn a_contract_line_is_read(rt: HostRuntime) -> Result<(), Fail> {
    let mut numbers = [0u32; 3];
    let next = read_line(b"C 11 3 200000\nT", 0, b'C', &mut numbers)?;
    assert_eq!(rt; next, 14);
    assert_eq!(rt; numbers, [11, 3, 200_000]);
    Ok(())
}

#[test]
fn a_malformed_line_is_told(rt: HostRuntime) {
    let mut numbers = [0u32; 1];
    assert_eq!(rt;
        read_line(b"S 1x\n", 0, b'S', &mut numbers),
        Err(Malformed::Number(NumberFault::NoDigit))
    );
    assert_eq!(rt;
        read_line(b"S 1 2\n", 0, b'S', &mut numbers),
        Err(Malformed::NoEnd)
    );
    assert_eq!(rt; number(b"4294967296"), Err(NumberFault::TooLarge));
}

#[test]
fn a_trailer_is_read(rt: HostRuntime) -> Result<(), Fail> {
    let trailer = read_trailer(b"T 00006 1 003 010\n").ok_or("no trailer")?;
    assert_eq!(rt; trailer.ceiling, 6);
    assert_eq!(rt; trailer.place, 10);
    Ok(())
}

#[test]
fn lines_are_told(rt: HostRuntime) {
    let mut out = [b'.'; 18];
    assert_eq!(rt; refusal_line(&mut out, 13, 24), Ok(17));
    assert_eq!(rt; &out[..], &b"refused 13 at 24\n."[..]);
    assert_eq!(rt; level_line(&mut out, 2, 760, 760), Ok(10));
    assert_eq!(rt; &out[0..10], &b"2 760 760\n"[..]);
    assert_eq!(rt;
        level_line(&mut out, 2, 760_000_000_000, 760_000_000_000),
        Err(TooFew)
    );
}

#[test]
fn a_declined_line_leaves_those_before_it(rt: HostRuntime) -> Result<(), Fail> {
    let mut book = Book::new(rt.alloc())?;
    let mut levels = [9u32; 5];
    let mut bounds = [Grains { lower: 7, upper: 7 }; 5];
    let mut values = [None; 5];
    let file = b"S 1000000\nC 11 3 200000\nC 12 2 500000\nC 11 2 100000\nT 00006 1 003 010\n";
    let mut places = Lent::new(&mut levels, &mut bounds, &mut values);
    let Err(fault) = read::<Claims>(&mut book, file, &mut places) else {
        return Err(Fail::new("the key is there twice"));
    };
    assert_eq!(rt; fault.number(), 11);
    assert_eq!(rt; fault.place(), 38);
    assert_eq!(rt; fault.to_string(rt.alloc())?.as_str(), "refused 11 at 38");
    assert_eq!(rt; levels, [0, 2, 3, 5, 9]);
    assert_eq!(rt; book.levels_kept(), 4);
    Ok(())
}

#[test]
fn the_worked_book_is_written_back(rt: HostRuntime) -> Result<(), Fail> {
    let mut book = Book::new(rt.alloc())?;
    let mut levels = [0u32; 8];
    let mut bounds = [Grains { lower: 0, upper: 0 }; 8];
    let mut values = [None; 8];
    let file = b"S 1000000\nC 11 3 200000\nC 12 2 500000\nC 13 2 100000\nT 00006 1 003 010\n";
    let mut places = Lent::new(&mut levels, &mut bounds, &mut values);
    let Ok(_) = read::<Claims>(&mut book, file, &mut places) else {
        return Err(Fail::new("the file is refused"));
    };
    let mut out = [b'.'; 75];
    assert_eq!(rt; write(&book, &mut out[0..69]), Err(TooFew));
    assert_eq!(rt; out, [b'.'; 75]);
    assert_eq!(rt; write(&book, &mut out), Ok(70));
    assert_eq!(rt; &out[0..70], &file[..]);
    assert_eq!(rt; &out[70..75], &b"....."[..]);
    Ok(())
}

#[test]
fn two_scenarios_are_written_in_order(rt: HostRuntime) -> Result<(), Fail> {
    let mut book = Book::new(rt.alloc())?;
    let mut levels = [0u32; 4];
    let mut bounds = [Grains { lower: 0, upper: 0 }; 8];
    let mut values = [None; 8];
    let file = b"S 999999\nS 1\nC 4294967295 65535 0 1000000\nC 0 1 7 70\nT 65535 2 002 013\n";
    let mut places = Lent::new(&mut levels, &mut bounds, &mut values);
    let Ok(_) = read::<Claims>(&mut book, file, &mut places) else {
        return Err(Fail::new("the file is refused"));
    };
    let mut out = [b'.'; 71];
    assert_eq!(rt; write(&book, &mut out), Ok(71));
    assert_eq!(rt; &out[..], &file[..]);
    Ok(())
}

#[test]
fn a_written_book_is_read_back_over_fewer_places(rt: HostRuntime) -> Result<(), Fail> {
    let mut book = Book::new(rt.alloc())?;
    let mut levels = [0u32; 8];
    let mut bounds = [Grains { lower: 0, upper: 0 }; 8];
    let mut values = [None; 8];
    let file = b"S 1000000\nC 11 3 200000\nC 12 2 500000\nC 13 2 100000\nT 00006 1 003 010\n";
    let mut places = Lent::new(&mut levels, &mut bounds, &mut values);
    let Ok(_) = read::<Claims>(&mut book, file, &mut places) else {
        return Err(Fail::new("the file is refused"));
    };
    let mut out = [0u8; 70];
    assert_eq!(rt; write(&book, &mut out), Ok(70));
    let mut again = Book::new(rt.alloc())?;
    let mut fewer = [9u32; 5];
    let mut places = Lent::new(&mut fewer, &mut bounds[0..5], &mut values[0..5]);
    let Ok(_) = read::<Claims>(&mut again, &out[..], &mut places) else {
        return Err(Fail::new("five places are enough"));
    };
    assert_eq!(rt; fewer, [0, 2, 3, 4, 5]);
    assert_eq!(rt; again.ceiling(), 6);
    assert_eq!(rt; again.shares(), &[1_000_000][..]);
    assert_eq!(rt; again.contracts().len(), 3);
    Ok(())
}

#[test]
fn a_book_before_open_is_written(rt: HostRuntime) -> Result<(), Fail> {
    let book = Book::new(rt.alloc())?;
    let mut out = [b'.'; 28];
    assert_eq!(rt; write(&book, &mut out), Ok(28));
    assert_eq!(rt; &out[..], &b"S 1000000\nT 00001 1 000 010\n"[..]);
    Ok(())
}
