// READ: a file into chunk rows. The answer and the table are those of model/specs/Answer, for any buffer, length and table.
ghost use Rattle.std.specs.Prelude.{◌≡◌, true, ◌≤◌, length};
ghost use Rattle.model.specs.Item.{is_fine};
ghost use Rattle.model.specs.File.{contents_of};
ghost use Rattle.model.specs.Answer.{read_of, read_answer, read_table};
ghost use Rattle.reading.specs.Stages.{file_answer, file_rows, with_room};

use super::file::check_file;
use super::row::fill_rows;
use model::{ReadAnswer, Refusal, refused};

// The answer where all rows have room: how many they are, the check code and whether the file ends with it.
#[tactic(auto, using(crate::proofs::FileRows::file_rows_lem))]
fn answer_of(s: &[u8], count: usize) -> Result<ReadAnswer, Refusal>
    requires s_len_bound { length s.now ≤ 65536 }
    requires s_value { is_fine (contents_of s.now) ≡ true }
    requires count_value { count ≡ length (file_rows (contents_of s.now)) }
    ensures { result ≡ read_answer (contents_of s.now) }
{
    let end = s.len() - 2;
    let code = checkcode::check_code(&s[..end]);
    Ok(ReadAnswer {
        count,
        code,
        matches: numbers::number_at::<2>(s, end) == code as u32,
    })
}

// The whole read of the stated bytes: 2 to 14, then 15; nothing is written before all is known.
fn read_stated(s: &[u8], rows: &mut [u32]) -> Result<ReadAnswer, Refusal>
    requires { length s.now ≤ 65536 }
    ensures value { result ≡ read_answer (with_room (length rows.old) (contents_of s.now)) }
    ensures rows_after { rows.new ≡ read_table rows.old (with_room (length rows.old) (contents_of s.now)) }
{
    let count = check_file(s)?;
    if rows.len() / 4 < count {
        return refused(15, 0);
    }
    fill_rows(s, rows);
    answer_of(s, count)
}

pub fn read(buffer: &[u8], n: usize, rows: &mut [u32]) -> Result<ReadAnswer, Refusal>
    ensures value { result ≡ read_answer (read_of buffer.now n (length rows.old)) }
    ensures rows_after { rows.new ≡ read_table rows.old (read_of buffer.now n (length rows.old)) }
{
    if buffer.len() < n || 65536 < n {
        return refused(1, 0);
    }
    read_stated(&buffer[..n], rows)
}
