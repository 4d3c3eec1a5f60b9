// What an audit prints, on examples: the statement of a small sheet, and refusals with the caret under the place.
#![tactic(auto)]

#[cfg(test)]
mod tests {
    use board::Board;
    use board::words::{Misread, Trouble};
    use faults::fault::{RunFault, SheetFault, TextFault};
    use refused::{refused_board, refused_sheet};
    use statement::statement;
    use std::alloc::{AllocError, Global};
    use std::test::Fail;
    use table::WORDS;
    use table::checked::Checked;

    // min: 5 x1 3 -x2 with c0 = -3; 2 -x1 + 3 x2 >= 2; 1 x1 + 1 x2 >= 1; 0 >= 0
    fn small() -> [i32; WORDS] {
        let mut table = [0i32; WORDS];
        table[0] = 3;
        table[1] = 3;
        table[2] = -3;
        table[3] = 1;
        table[4] = 5;
        table[5] = -3;
        table[44] = 2;
        table[45] = -2;
        table[46] = 3;
        table[85] = 1;
        table[86] = 1;
        table[87] = 1;
        table
    }

    // The words of a board.
    fn words(heap: Global, line: &str) -> Result<Vec<String>, AllocError> {
        let mut words = Vec::new(heap);
        for word in line.split_whitespace() {
            words.push(String::from_str(heap, word)?)?;
        }
        Ok(words)
    }

    // The statement of a table and a board, or what is wrong with them.
    fn stated(heap: Global, table: &[i32], line: &str) -> Result<String, AllocError> {
        if table::check(table).is_err() {
            return String::from_str(heap, "no sheet");
        }
        let sheet = Checked::new(table);
        let words = words(heap, line)?;
        match Board::read(words.as_slice(), &sheet) {
            Ok(board) => statement(heap, &sheet, &board),
            Err(misread) => refused_board(heap, words.as_slice(), misread, sheet.parts()),
        }
    }

    #[test]
    fn met(rt: HostRuntime) -> Result<(), Fail> {
        let got = stated(rt.alloc(), &small(), "x2")?;
        assert_eq!(rt;
            got.as_str(),
            "the sheet: parts: 3, rules: 3, price line: yes
rule  verdict  reached  needed  in normal form
   1  met            5       2  2 -x1 + 3 x2 >= 2
   2  met            1       1  1 x1 + 1 x2 >= 1
   3  met            0       0  0 >= 0
the board: -x1 x2 -x3
its price: -3
the board meets the sheet
"
        );
        Ok(())
    }

    #[test]
    fn broken(rt: HostRuntime) -> Result<(), Fail> {
        let got = stated(rt.alloc(), &small(), "x1 -x02 x3")?;
        assert_eq!(rt;
            got.as_str(),
            "the sheet: parts: 3, rules: 3, price line: yes
rule  verdict  reached  needed  in normal form
   1  BROKEN         0       2  2 -x1 + 3 x2 >= 2
   2  met            1       1  1 x1 + 1 x2 >= 1
   3  met            0       0  0 >= 0
the board: x1 -x2 x3
its price: 5
the board does NOT meet the sheet: 1 of 3 rules broken
"
        );
        Ok(())
    }

    #[test]
    fn no_price(rt: HostRuntime) -> Result<(), Fail> {
        let mut table = [0i32; WORDS];
        table[0] = 1;
        let got = stated(rt.alloc(), &table, "")?;
        assert_eq!(rt;
            got.as_str(),
            "the sheet: parts: 1, rules: 0, price line: no
rule  verdict  reached  needed  in normal form
the board: -x1
its price: none, the sheet has no price line
the board meets the sheet
"
        );
        Ok(())
    }

    #[test]
    fn not_a_literal(rt: HostRuntime) -> Result<(), Fail> {
        let got = stated(rt.alloc(), &small(), "x1 y2")?;
        assert_eq!(rt;
            got.as_str(),
            "the board is refused: argument 2, `y2`, is not a literal
name the parts x1 to x3, each at most once: x1 takes part 1, -x1 leaves it out; a part that is not named is not taken
"
        );
        Ok(())
    }

    #[test]
    fn misread(rt: HostRuntime) -> Result<(), Fail> {
        let misread = Misread {
            index: 1,
            trouble: Trouble::NotALiteral,
        };
        let got = misread.to_string(rt.alloc())?;
        assert_eq!(rt; got.as_str(), "word 2 is not a literal");
        Ok(())
    }

    #[test]
    fn no_such_part(rt: HostRuntime) -> Result<(), Fail> {
        let got = stated(rt.alloc(), &small(), "-x4")?;
        assert!(rt;
            got.as_str().starts_with(
                "the board is refused: argument 1, `-x4`, names a part that the sheet does not declare",
            )
        );
        Ok(())
    }

    #[test]
    fn named_twice(rt: HostRuntime) -> Result<(), Fail> {
        let got = stated(rt.alloc(), &small(), "x1 x3 -x1")?;
        assert!(rt;
            got.as_str().starts_with(
                "the board is refused: argument 3, `-x1`, names a part that an earlier word has named",
            )
        );
        Ok(())
    }

    #[test]
    fn caret(rt: HostRuntime) -> Result<(), Fail> {
        let text = b"* #variable= 2 #constraint= 1\n1 x1\t1 x3 >= 1 ;\n";
        let got = refused_sheet(rt.alloc(), text, RunFault::Sheet(SheetFault::Unknown(37)))?;
        assert_eq!(rt;
            got.as_str(),
            "the sheet is refused: layer 2, number 5, place 37
the sheet declares no such part
line 2, column 8:
  1 x1.1 x3 >= 1 ;
         ^
"
        );
        Ok(())
    }

    #[test]
    fn caret_at_the_end(rt: HostRuntime) -> Result<(), Fail> {
        let text = b"* #variable= 2 #constraint= 1\n1 x1";
        let got = refused_sheet(
            rt.alloc(),
            text,
            RunFault::Sheet(SheetFault::Text(TextFault::Cut(34))),
        )?;
        assert_eq!(rt;
            got.as_str(),
            "the sheet is refused: layer 1, number 4, place 34
the text ends too early
line 2, column 5:
  1 x1
      ^
"
        );
        Ok(())
    }

    #[test]
    fn caret_in_a_long_line(rt: HostRuntime) -> Result<(), Fail> {
        let text =
            b"\n1 x1 1 x2 1 x3 1 x4 1 x5 1 x6 1 x7 1 x8 1 x9 1 x10 1 x11 1 x12 1 x13 ? 1 x14 1 x15 1 x16 1 x17 1 x18 >= 1 ;";
        let got = refused_sheet(
            rt.alloc(),
            text,
            RunFault::Sheet(SheetFault::Text(TextFault::Misplaced(70))),
        )?;
        assert_eq!(rt;
            got.as_str(),
            "the sheet is refused: layer 1, number 2, place 70
this cannot stand here
line 2, column 70:
  ... x5 1 x6 1 x7 1 x8 1 x9 1 x10 1 x11 1 x12 1 x13 ? 1 x14 1 x15 1 x16 1 x1...
                                                     ^
"
        );
        Ok(())
    }

    #[test]
    fn words_of_a_table(rt: HostRuntime) -> Result<(), Fail> {
        let got = refused_sheet(rt.alloc(), b"", RunFault::Layout(45))?;
        assert_eq!(rt;
            got.as_str(),
            "the sheet is refused: layer 3, number 12, place 45
this word of the table is not within its limits
"
        );
        Ok(())
    }
}
