// The calls on small books, and on places that others wrote to.
ghost use Rattle.std.specs.Prelude.{◌≤◌, min};
ghost use Rattle.std.proofs.Common.{lit≤};
ghost use Rattle.std.proofs.Math.Nat.{min-le_right, min-eq_left};

use book::book::Book;
use book::places::Lent;
use book::refusal::Refusal;
use book::shown::Shown;
use reckoning::claims::Claims;
use reckoning::grains::Grains;
use reckoning::rate::Rate;
use reckoning::reckoning::Reckoning;
use std::test::Fail;

const ALL: [u32; 1] = [1_000_000];

const HALF: [u32; 1] = [500_000];

fn exact(grains: u64) -> Grains {
    Grains {
        lower: grains,
        upper: grains,
    }
}

#[test]
fn worked_book_keeps_five_levels(rt: HostRuntime) -> Result<(), Fail> {
    let mut book = Book::new(rt.alloc())?;
    let mut levels = [9u32; 6];
    let mut bounds = [exact(7); 6];
    let mut values = [Some(7u16); 6];
    let mut places = Lent::new(&mut levels, &mut bounds, &mut values);
    book.open::<Claims>(6, &ALL, &mut places)?;
    book.enter::<Claims>(11, 3, &[200_000], &mut places)?;
    book.enter::<Claims>(12, 2, &HALF, &mut places)?;
    book.enter::<Claims>(13, 2, &[100_000], &mut places)?;
    assert_eq!(rt; book.levels_kept(), 5);
    assert_eq!(rt; levels, [0, 2, 3, 4, 5, 9]);
    assert_eq!(rt; bounds[0], exact(360_000_000_000));
    assert_eq!(rt; bounds[1], exact(760_000_000_000));
    assert_eq!(rt; bounds[2], exact(850_000_000_000));
    assert_eq!(rt; bounds[3], exact(890_000_000_000));
    assert_eq!(rt; bounds[4], exact(990_000_000_000));
    assert_eq!(rt; bounds[5], exact(7));
    assert_eq!(rt;
        values,
        [Some(0), Some(1), Some(1), Some(2), Some(2), Some(7)]
    );
    assert_eq!(rt;
        book.chance::<Claims>(0, 6, &Shown::new(&levels, &bounds, &values))?,
        (990_000_000_000, 990_000_000_000)
    );
    assert_eq!(rt;
        book.value::<Claims>(1, 3, &Shown::new(&levels, &bounds, &values))?,
        Some(1)
    );
    Ok(())
}

#[test]
fn two_places_hold_two_levels(rt: HostRuntime) -> Result<(), Fail> {
    let mut book = Book::new(rt.alloc())?;
    let mut levels = [0u32; 2];
    let mut bounds = [exact(0); 2];
    let mut values = [None; 2];
    let mut places = Lent::new(&mut levels, &mut bounds, &mut values);
    book.open::<Claims>(6, &ALL, &mut places)?;
    book.enter::<Claims>(1, 1, &HALF, &mut places)?;
    let third = book.enter::<Claims>(2, 1, &HALF, &mut places);
    assert!(rt; matches!(third, Err(Refusal::Levels)));
    let mut places = Lent::new(&mut levels, &mut bounds, &mut values);
    book.open::<Claims>(1, &ALL, &mut places)?;
    book.enter::<Claims>(1, 1, &HALF, &mut places)?;
    book.enter::<Claims>(2, 1, &HALF, &mut places)?;
    assert_eq!(rt; bounds, [exact(250_000_000_000), exact(750_000_000_000)]);
    Ok(())
}

#[test]
fn loss_above_the_ceiling_adds_no_level(rt: HostRuntime) -> Result<(), Fail> {
    let mut book = Book::new(rt.alloc())?;
    let mut levels = [0u32; 2];
    let mut bounds = [exact(0); 2];
    let mut values = [None; 2];
    let mut places = Lent::new(&mut levels, &mut bounds, &mut values);
    book.open::<Claims>(6, &ALL, &mut places)?;
    book.enter::<Claims>(1, 7, &HALF, &mut places)?;
    assert_eq!(rt; book.levels_kept(), 1);
    assert_eq!(rt;
        book.chance::<Claims>(1, 6, &Shown::new(&levels, &bounds, &values))?,
        (500_000_000_000, 500_000_000_000)
    );
    Ok(())
}

#[test]
fn garbage_in_places_is_lived_with(rt: HostRuntime) -> Result<(), Fail> {
    let mut book = Book::new(rt.alloc())?;
    let mut levels = [0u32; 4];
    let mut bounds = [exact(0); 4];
    let mut values = [None; 4];
    let mut places = Lent::new(&mut levels, &mut bounds, &mut values);
    book.open::<Claims>(6, &ALL, &mut places)?;
    book.enter::<Claims>(1, 2, &HALF, &mut places)?;
    levels = [u32::MAX, 0, 5, u32::MAX];
    bounds = [Grains { lower: 9, upper: 3 }; 4];
    values = [Some(9_999u16); 4];
    let mut places = Lent::new(&mut levels, &mut bounds, &mut values);
    let again = book.enter::<Claims>(1, 2, &HALF, &mut places);
    assert!(rt; matches!(again, Err(Refusal::Present)));
    assert_eq!(rt; levels, [u32::MAX, 0, 5, u32::MAX]);
    assert_eq!(rt; bounds[3], Grains { lower: 9, upper: 3 });
    assert_eq!(rt;
        book.chance::<Claims>(0, 3, &Shown::new(&levels, &bounds, &values))?,
        (0, 1_000_000_000_000)
    );
    assert_eq!(rt;
        book.value::<Claims>(1, 3, &Shown::new(&levels, &bounds, &values))?,
        Some(256)
    );
    let mut places = Lent::new(&mut levels, &mut bounds, &mut values);
    let more = book.enter::<Claims>(2, 2, &HALF, &mut places);
    assert!(rt; more.is_ok());
    let few = book.chance::<Claims>(0, 3, &Shown::new(&levels[1..], &bounds, &values));
    assert!(rt; matches!(few, Err(Refusal::Places)));
    Ok(())
}

#[test]
fn each_scenario_has_its_row(rt: HostRuntime) -> Result<(), Fail> {
    let mut book = Book::new(rt.alloc())?;
    let mut levels = [9u32; 3];
    let mut bounds = [exact(7); 8];
    let mut values = [Some(7u16); 7];
    let shares = [250_000u32, 750_000];
    let rates = [200_000u32, 400_000];
    let mut places = Lent::new(&mut levels, &mut bounds, &mut values);
    book.open::<Claims>(6, &shares, &mut places)?;
    let mut places = Lent::new(&mut levels, &mut bounds, &mut values);
    book.enter::<Claims>(1, 1, &rates, &mut places)?;
    assert_eq!(rt; levels, [0, 1, 9]);
    assert_eq!(rt; bounds[0], exact(800_000_000_000));
    assert_eq!(rt; bounds[2], exact(7));
    assert_eq!(rt; bounds[3], exact(600_000_000_000));
    assert_eq!(rt; bounds[5], exact(7));
    assert_eq!(rt;
        book.chance::<Claims>(2, 0, &Shown::new(&levels, &bounds, &values))?,
        (600_000_000_000, 600_000_000_000)
    );
    assert_eq!(rt;
        book.chance::<Claims>(0, 0, &Shown::new(&levels, &bounds, &values))?,
        (650_000_000_000, 650_000_000_000)
    );
    Ok(())
}

#[test]
fn other_slices_get_an_answer_in_range(rt: HostRuntime) -> Result<(), Fail> {
    let mut book = Book::new(rt.alloc())?;
    let mut levels = [0u32; 4];
    let mut bounds = [exact(0); 4];
    let mut values = [None; 4];
    let mut places = Lent::new(&mut levels, &mut bounds, &mut values);
    book.open::<Claims>(6, &ALL, &mut places)?;
    book.enter::<Claims>(1, 2, &HALF, &mut places)?;
    let others = [3u32, 1, 1, 0];
    let pairs = [exact(2_000_000_000_000); 4];
    let counts = [None; 4];
    let (lower, upper) = book.chance::<Claims>(0, 6, &Shown::new(&others, &pairs, &counts))?;
    assert!(rt; lower <= upper);
    assert!(rt; upper <= 1_000_000_000_000);
    assert_eq!(rt;
        book.value::<Claims>(1, 6, &Shown::new(&others, &pairs, &counts))?,
        None
    );
    let many = book.chance::<Claims>(0, 6, &Shown::new(&[0u32; 5], &pairs, &counts));
    assert!(rt; matches!(many, Err(Refusal::Places)));
    let few = book.chance::<Claims>(0, 6, &Shown::new(&others, &pairs[1..], &counts));
    assert!(rt; matches!(few, Err(Refusal::Places)));
    Ok(())
}

// Reckons the rate of the contract that was entered last.
#[derive(Clone, Copy)]
struct Newest;

impl Reckoning for Newest {
    type Value = u32;

    ghost operations = { record { nothing = 0; whole = 0; blended = λ r u v. r } };

    ghost ranged = { λ u. u ≤ 1000000 };

    ghost reading = { λ u. min u 1000000 };

    ghost stands = { λ u rates family. u ≤ 1000000 };

    ghost nothing_stands = { λ rates. lit≤ tt };

    ghost whole_stands = { lit≤ tt };

    ghost blend_stands = { λ r u v rates us vs h few su sv. h };

    ghost stands_ranged = { λ u rates family s. s };

    ghost blend_ranged = { λ r u v h. h };

    ghost reading_ranged = { λ u. min-le_right u 1000000 };

    ghost reading_same = { λ u h. min-eq_left h };

    fn nothing() -> u32 {
        0
    }

    fn whole() -> u32 {
        0
    }

    fn blend(rate: Rate, u: u32, v: u32) -> u32 {
        rate.millionths()
    }

    fn read(place: u32) -> u32 {
        place.min(1_000_000)
    }
}

#[test]
fn a_reckoning_of_the_test_works(rt: HostRuntime) -> Result<(), Fail> {
    let mut book = Book::new(rt.alloc())?;
    let mut levels = [0u32; 4];
    let mut bounds = [exact(0); 4];
    let mut values = [9u32; 4];
    let mut places = Lent::new(&mut levels, &mut bounds, &mut values);
    book.open::<Newest>(6, &ALL, &mut places)?;
    book.enter::<Newest>(1, 2, &[250_000], &mut places)?;
    book.enter::<Newest>(2, 3, &HALF, &mut places)?;
    assert_eq!(rt; values, [500_000; 4]);
    assert_eq!(rt;
        book.value::<Newest>(1, 6, &Shown::new(&levels, &bounds, &values))?,
        500_000
    );
    Ok(())
}
