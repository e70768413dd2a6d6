// Strike, re-rate and reserve on the worked book, and on places that others wrote to.
use book::book::Book;
use book::places::Lent;
use book::refusal::Refusal;
use book::shown::Shown;
use reckoning::claims::Claims;
use reckoning::grains::Grains;
use std::alloc::Global;
use std::process::Abort;
use std::test::Fail;

fn exact(grains: u64) -> Grains {
    Grains {
        lower: grains,
        upper: grains,
    }
}

// Contracts 11, 12 and 13 of losses 3, 2 and 2.
fn worked(heap: Global, places: &mut Lent<'_, Option<u16>>) -> Result<Book, Fail> {
    let mut book = Book::new(heap)?;
    book.open::<Claims>(6, &[1_000_000], places)?;
    book.enter::<Claims>(11, 3, &[200_000], places)?;
    book.enter::<Claims>(12, 2, &[500_000], places)?;
    book.enter::<Claims>(13, 2, &[100_000], places)?;
    Ok(book)
}

#[test]
fn striking_leaves_the_book_of_the_rest(rt: HostRuntime) -> Result<(), Fail> {
    let mut levels = [9u32; 6];
    let mut bounds = [exact(7); 6];
    let mut values = [Some(7u16); 6];
    let mut places = Lent::new(&mut levels, &mut bounds, &mut values);
    let mut book = worked(rt.alloc(), &mut places)?;
    book.strike::<Claims>(11, &mut places)?;
    assert_eq!(rt; book.levels_kept(), 3);
    assert_eq!(rt; levels, [0, 2, 4, 4, 5, 9]);
    assert_eq!(rt; bounds[0], exact(450_000_000_000));
    assert_eq!(rt; bounds[1], exact(950_000_000_000));
    assert_eq!(rt; bounds[2], exact(1_000_000_000_000));
    assert_eq!(rt; bounds[3], exact(890_000_000_000));
    assert_eq!(rt; values[2], Some(2));
    let mut places = Lent::new(&mut levels, &mut bounds, &mut values);
    let again = book.strike::<Claims>(11, &mut places);
    assert!(rt; matches!(again, Err(Refusal::Absent)));
    let mut places = Lent::new(&mut levels, &mut bounds, &mut values);
    book.enter::<Claims>(11, 3, &[200_000], &mut places)?;
    assert_eq!(rt; levels, [0, 2, 3, 4, 5, 9]);
    assert_eq!(rt; bounds[3], exact(890_000_000_000));
    Ok(())
}

#[test]
fn other_rates_keep_the_levels(rt: HostRuntime) -> Result<(), Fail> {
    let mut levels = [9u32; 6];
    let mut bounds = [exact(7); 6];
    let mut values = [Some(7u16); 6];
    let mut places = Lent::new(&mut levels, &mut bounds, &mut values);
    let mut book = worked(rt.alloc(), &mut places)?;
    book.rerate::<Claims>(11, &[0], &mut places)?;
    assert_eq!(rt; levels, [0, 2, 3, 4, 5, 9]);
    assert_eq!(rt; bounds[0], exact(450_000_000_000));
    assert_eq!(rt; bounds[2], exact(950_000_000_000));
    assert_eq!(rt; bounds[4], exact(1_000_000_000_000));
    assert_eq!(rt;
        values,
        [Some(0), Some(1), Some(1), Some(2), Some(2), Some(7)]
    );
    let mut places = Lent::new(&mut levels, &mut bounds, &mut values);
    let two = book.rerate::<Claims>(99, &[0, 0], &mut places);
    assert!(rt; matches!(two, Err(Refusal::Rates)));
    let mut places = Lent::new(&mut levels, &mut bounds, &mut values);
    let none = book.rerate::<Claims>(99, &[0], &mut places);
    assert!(rt; matches!(none, Err(Refusal::Absent)));
    Ok(())
}

#[test]
fn reserve_is_the_least_level_that_reaches(rt: HostRuntime) -> Result<(), Fail> {
    let mut levels = [9u32; 6];
    let mut bounds = [exact(7); 6];
    let mut values = [Some(7u16); 6];
    let mut places = Lent::new(&mut levels, &mut bounds, &mut values);
    let book = worked(rt.alloc(), &mut places)?;
    assert_eq!(rt;
        book.reserve::<Claims>(850_000, &Shown::new(&levels, &bounds, &values))?,
        (Some(3), Some(3))
    );
    assert_eq!(rt;
        book.reserve::<Claims>(850_001, &Shown::new(&levels, &bounds, &values))?,
        (Some(4), Some(4))
    );
    assert_eq!(rt;
        book.reserve::<Claims>(990_001, &Shown::new(&levels, &bounds, &values))?,
        (None, None)
    );
    let none = book.reserve::<Claims>(0, &Shown::new(&levels, &bounds, &values));
    assert!(rt; matches!(none, Err(Refusal::Confidence)));
    Ok(())
}

#[test]
fn a_rebuild_over_foreign_places_stays_inside(rt: HostRuntime) -> Result<(), Fail> {
    let mut levels = [9u32; 2];
    let mut bounds = [exact(7); 2];
    let mut values = [Some(7u16); 2];
    let mut book = Book::new(rt.alloc())?;
    let mut places = Lent::new(&mut levels, &mut bounds, &mut values);
    book.open::<Claims>(6, &[1_000_000], &mut places)?;
    book.enter::<Claims>(1, 2, &[500_000], &mut places)?;
    levels = [6, 6];
    let mut places = Lent::new(&mut levels, &mut bounds, &mut values);
    book.enter::<Claims>(2, 1, &[500_000], &mut places)?;
    book.enter::<Claims>(3, 4, &[500_000], &mut places)?;
    book.strike::<Claims>(3, &mut places)?;
    assert_eq!(rt; book.levels_kept(), 2);
    assert_eq!(rt; levels, [0, 2]);
    Ok(())
}

// Opens the book and enters the contracts 0 to 255, all but one.
fn fill_but(but: u32, book: &mut Book, places: &mut Lent<'_, Option<u16>>) -> Result<(), Fail> {
    book.open::<Claims>(10, &[1_000_000], places)?;
    for key in 0..256u32 {
        if key != but {
            let rates = [key * 3_900];
            book.enter::<Claims>(key, key % 3 + 1, &rates, places)?;
        }
    }
    Ok(())
}

// Strikes a key from the full book, and compares with a book that never had it.
fn strike_and_compare(
    rt: &impl Abort,
    key: u32,
    full: &mut Book,
    less: &mut Book,
) -> Result<(), Fail> {
    let mut levels = [0u32; 11];
    let mut bounds = [exact(0); 11];
    let mut values = [None; 11];
    fill_but(
        256,
        full,
        &mut Lent::new(&mut levels, &mut bounds, &mut values),
    )?;
    full.strike::<Claims>(key, &mut Lent::new(&mut levels, &mut bounds, &mut values))?;
    let mut other_levels = [0u32; 11];
    let mut other_bounds = [exact(0); 11];
    let mut other_values = [None; 11];
    fill_but(
        key,
        less,
        &mut Lent::new(&mut other_levels, &mut other_bounds, &mut other_values),
    )?;
    assert_eq!(rt; levels, other_levels);
    assert_eq!(rt; bounds, other_bounds);
    assert_eq!(rt; values, other_values);
    Ok(())
}

#[test]
fn striking_each_of_256_gives_the_book_without_it(rt: HostRuntime) -> Result<(), Fail> {
    let mut full = Book::new(rt.alloc())?;
    let mut less = Book::new(rt.alloc())?;
    for key in 0..256u32 {
        strike_and_compare(&rt, key, &mut full, &mut less)?;
    }
    Ok(())
}
