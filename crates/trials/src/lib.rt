// Examples of plates, layers, figures and printed lines together, as tests: each is proved to end safely, and then run.
// What they show is told in docs/PLATES.md, docs/LAYERS.md, docs/FIGURES.md and docs/PRINTING.md.
#![tactic(auto)]

#[cfg(test)]
mod tests {
    use bitmap::Bitmap;
    use cached::Cached;
    use figure::{circle, filled, line, outline};
    use layer::{Overlay, Turning, mask_over, shift_over, turn_over};
    use pile::{exchanges_axes, place_of};
    use plate::{Dot, Ink, Plate, Refusal, StrikeRefusal, Window};
    use report::{write_header, write_refusal, write_row};
    use strip::{Record, Strip};

    fn blank() -> Record {
        Record {
            at: (0, 0),
            ink: Ink::Clear,
        }
    }

    fn bounds() -> Window {
        Window {
            left: -9,
            top: -9,
            right: 9,
            bottom: 9,
        }
    }

    // What came of a call, a refusal told by its number.
    fn told<T, R: Refusal + Copy>(answer: Result<T, R>) -> Result<T, u8> {
        answer.map_err(|cause| cause.number())
    }

    // A crossing halfway between two dots goes away from the start.
    #[test]
    fn line_and_back(rt: HostRuntime) {
        let mut records = [blank(); 10];
        {
            let mut strip = Strip::new(bounds(), &mut records);
            assert_eq!(rt; line(&mut strip, (0, 0), (4, 2), Ink::Light), Ok(5));
            assert_eq!(rt; line(&mut strip, (4, 2), (0, 0), Ink::Clear), Ok(5));
        }
        let dots = [
            (0, 0),
            (1, 1),
            (2, 1),
            (3, 2),
            (4, 2),
            (4, 2),
            (3, 1),
            (2, 1),
            (1, 0),
            (0, 0),
        ];
        for (record, dot) in records.iter().zip(dots) {
            assert_eq!(rt; record.at, dot);
        }
    }

    // The last place takes one strike, and then there are no shots.
    #[test]
    fn strip_is_full_at_its_last_place(rt: HostRuntime) {
        let mut records = [blank(); 2];
        let mut strip = Strip::new(bounds(), &mut records);
        assert!(rt; strip.strike((1, 1), Ink::Light).is_ok());
        assert!(rt; strip.strike((1, 1), Ink::Flip).is_ok());
        assert_eq!(rt; strip.shots(), 0);
        assert_eq!(rt; strip.ask((1, 1)), Some(false));
        assert_eq!(rt; told(strip.strike((10, 1), Ink::Light)), Err(20));
        assert_eq!(rt; told(strip.strike((1, 1), Ink::Light)), Err(21));
    }

    // 22 is judged by the dots that the window shows.
    #[test]
    fn line_through_a_bitmap(rt: HostRuntime) {
        let mut bytes = [0u8; 4];
        let mut out = [b'-'; 8];
        let mut bitmap = Bitmap::new(6, 4, 5, &mut bytes);
        assert_eq!(rt; line(&mut bitmap, (-3, 1), (4, 1), Ink::Light), Ok(5));
        assert_eq!(rt;
            told(line(&mut bitmap, (-3, 2), (4, 2), Ink::Light)),
            Err(22)
        );
        assert_eq!(rt; line(&mut bitmap, (9, 9), (20, 9), Ink::Light), Ok(0));
        assert_eq!(rt; write_row(&mut bitmap, 1, &mut out), Ok(7));
        assert_eq!(rt; &out, b"#####.\n-");
        assert_eq!(rt; told(write_row(&mut bitmap, 4, &mut [])), Err(20));
    }

    // Ten dots to a row leave six spare bits, and the fifth byte lies past two rows.
    #[test]
    fn inks_at_the_edges_of_bytes(rt: HostRuntime) {
        let mut bytes = [0x00, 0x3f, 0x01, 0xbf, 0x5a];
        let mut bitmap = Bitmap::new(10, 2, 4, &mut bytes);
        for (dot, ink) in [
            ((7, 0), Ink::Light),
            ((8, 0), Ink::Flip),
            ((7, 1), Ink::Clear),
            ((0, 1), Ink::Flip),
        ] {
            assert!(rt; bitmap.strike(dot, ink).is_ok());
        }
        assert_eq!(rt; bitmap.ask((8, 0)), Some(true));
        assert_eq!(rt; bitmap.ask((10, 0)), None);
        assert_eq!(rt; bytes, [0x01, 0xbf, 0x80, 0xbf, 0x5a]);
    }

    #[test]
    fn refused_sizes(rt: HostRuntime) {
        let mut bytes = [0; 3];
        for (width, height) in [(0, 3), (8193, 1), (9, 2)] {
            assert!(rt; Bitmap::check(width, height, &bytes).is_err());
        }
        let mut bitmap = Bitmap::new(9, 2, 5, &mut bytes);
        assert_eq!(rt; bitmap.shots(), 0);
        assert_eq!(rt; bitmap.window().right, 0);
    }

    #[test]
    fn header_needs_all_its_bytes(rt: HostRuntime) {
        let mut out = [b'-'; 12];
        assert_eq!(rt; write_header(&mut out, 120, 80, 4000), Ok(12));
        assert_eq!(rt; &out, b"120 80 4000\n");
        let mut short = [b'-'; 11];
        assert_eq!(rt; told(write_header(&mut short, 120, 80, 4000)), Err(11));
        assert_eq!(rt; &short, b"-----------");
    }

    #[test]
    fn refusal_keeps_the_bytes_after_it(rt: HostRuntime) {
        let mut out = [b'-'; 30];
        let cause = StrikeRefusal::Outside;
        assert_eq!(rt; write_refusal(&mut out, &cause, 7, 10), Ok(28));
        assert_eq!(rt; &out, b"refused 20 line 7 column 10\n--");
    }

    // A question changes how this plate is kept; a line through a mask and a turn runs on it all the same.
    #[test]
    fn line_on_a_plate_that_questions_change(rt: HostRuntime) {
        let quarter = turn_over(1, shift_over(15, 0, Cached::new(40)));
        let shown = Window {
            left: 2,
            top: 0,
            right: 15,
            bottom: 15,
        };
        let mut pile = mask_over(shown, quarter);
        assert_eq!(rt; line(&mut pile, (0, 3), (9, 3), Ink::Light), Ok(8));
        assert_eq!(rt; line(&mut pile, (5, 0), (5, 15), Ink::Flip), Ok(16));
        assert_eq!(rt; pile.ask((1, 3)), None);
        assert_eq!(rt; pile.ask((2, 3)), Some(true));
        assert_eq!(rt; pile.ask((5, 3)), Some(false));
        assert_eq!(rt; pile.ask((5, 4)), Some(true));
        assert_eq!(rt; pile.shots(), 16);
        assert_eq!(rt; place_of(&mut pile, (9, 3)), Some((12, 9)));
        assert!(rt; exchanges_axes(&mut pile));
    }

    // A circle of radius 4 has 24 dots, 7 of them in its last quarter with the axes.
    #[test]
    fn circle_by_its_shots(rt: HostRuntime) {
        let mut bytes = [0u8; 18];
        {
            let mut short = Bitmap::new(9, 9, 23, &mut bytes);
            assert_eq!(rt; told(circle(&mut short, (4, 4), 4, Ink::Light)), Err(22));
        }
        assert_eq!(rt; bytes, [0u8; 18]);
        let mut bare = Bitmap::new(9, 9, 24, &mut bytes);
        assert_eq!(rt; circle(&mut bare, (4, 4), 4, Ink::Light), Ok(24));
        assert_eq!(rt; bare.shots(), 0);
        let quarter = Window {
            left: 4,
            top: 4,
            right: 8,
            bottom: 8,
        };
        let mut other = [0u8; 18];
        let mut six = mask_over(quarter, Bitmap::new(9, 9, 6, &mut other));
        assert!(rt; circle(&mut six, (4, 4), 4, Ink::Light).is_err());
        let mut seven = mask_over(quarter, Bitmap::new(9, 9, 7, &mut other));
        assert_eq!(rt; circle(&mut seven, (4, 4), 4, Ink::Light), Ok(7));
    }

    #[test]
    fn ellipses_by_their_counts(rt: HostRuntime) {
        let mut records = [blank(); 200];
        let wide = Window {
            left: -20,
            top: -20,
            right: 20,
            bottom: 20,
        };
        let mut strip = Strip::new(wide, &mut records);
        assert_eq!(rt; outline(&mut strip, (0, 0), 4, 1, Ink::Light), Ok(16));
        assert_eq!(rt; outline(&mut strip, (0, 0), 7, 1, Ink::Light), Ok(28));
        assert_eq!(rt; outline(&mut strip, (0, 0), 8, 1, Ink::Light), Ok(30));
        assert_eq!(rt; outline(&mut strip, (0, 0), 15, 1, Ink::Light), Ok(56));
        assert_eq!(rt; outline(&mut strip, (0, 0), 0, 3, Ink::Light), Ok(7));
        assert_eq!(rt; outline(&mut strip, (0, 0), 0, 0, Ink::Light), Ok(1));
        assert_eq!(rt; filled(&mut strip, (0, 0), 4, 4, Ink::Light), Ok(61));
        assert_eq!(rt;
            told(outline(&mut strip, (0, 0), 4096, 1, Ink::Light)),
            Err(2)
        );
        assert_eq!(rt;
            told(outline(&mut strip, (32768, 0), -1, 1, Ink::Light)),
            Err(1)
        );
    }

    fn placed(layer: &dyn Overlay, at: Dot) -> Dot {
        layer.map(at)
    }

    // Code that keeps layers of several kinds asks each for its map behind a reference.
    #[test]
    fn map_behind_a_reference(rt: HostRuntime) {
        let mut places = [(0, 0); 2];
        if let (Ok(quarter), Ok(swap)) = (Turning::try_from(1), Turning::try_from(6)) {
            places = [placed(&quarter, (3, 1)), placed(&swap, (3, 1))];
        }
        assert_eq!(rt; places, [(-1, 3), (1, 3)]);
    }
}
