// The desk's text, whole: a report of what a recording holds, or the refusal of an input, laid into lent bytes. What the text
// is for every input is defined in the room `desk_text`.
#![tactic(auto)]

mod fields;
mod lines;

ghost use Rattle.std.specs.Prelude.{◌+◌, length};
ghost use Rattle.desk_text.specs.Report.{refusal};
ghost use Rattle.desk_text.specs.Report.{report as report_of};
ghost use Rattle.desk_report.specs.Laying.{Laid, Space};
ghost use Rattle.desk_report.specs.Reporting.{customer_in, vehicle_in, Within};
ghost use Rattle.desk_text.specs.Promise.{DeskPromise};

use desk_text::{Answered, FewLent, GoodInput, InputRefusal, Labels};
use fields::{put, put_number};
use lines::{Recording, put_lines};

// Where the customer's label begins in a good input: after `own` and a tab.
const CUSTOMER: usize = 4;

// The report of a recording whose labels stand in the input: the header, and a line for each answer.
fn put_report(input: &[u8], labels: Labels, widths: &[u32], lent: &mut [u8]) -> usize
    requires within { Within input.now labels }
    requires space { Space (report_of (customer_in input.now labels) (vehicle_in input.now labels) widths.now) lent.old }
    ensures { Laid (report_of (customer_in input.now labels) (vehicle_in input.now labels) widths.now) lent.old lent.new result }
{
    let c = CUSTOMER + labels.customer;
    let v = c + 1 + labels.vehicle;
    let k = put(b"customer\tvehicle\tat\tkind\tmain\tresponse\n", lent);
    let recording = Recording {
        customer: &input[CUSTOMER..c],
        vehicle: &input[c + 1..v],
        widths,
    };
    k + put_lines(&recording, &mut lent[k..])
}

// The refusal of an input at a line.
#[tactic(auto, using(crate::proofs::Laying::laying_laws))]
fn put_refusal(line: usize, lent: &mut [u8]) -> usize
    requires { Space (refusal line) lent.old }
    ensures { Laid (refusal line) lent.old lent.new result }
{
    let k1 = put(b"refused\t", lent);
    let k2 = k1 + put_number(line, &mut lent[k1..]);
    k2 + put(b"\n", &mut lent[k2..])
}

// The whole text for an input: it stands first in the lent bytes, and a good input's widths stand first in the lent words.
pub fn desk(input: &[u8], words: &mut [u32], lent: &mut [u8]) -> Result<Answered, FewLent>
    ensures { DeskPromise input.now words.old words.new lent.old lent.new result }
{
    if desk_answer::too_little(words.len(), lent.len()) {
        return Err(FewLent);
    }
    match desk_judge::judge(input, words) {
        Ok(GoodInput { labels, widths }) => {
            let length = put_report(input, labels, &words[..widths], lent);
            Ok(Answered::Report { length })
        }
        Err(InputRefusal::Bad { line }) => {
            let length = put_refusal(line, lent);
            Ok(Answered::Refused { line, length })
        }
        Err(InputRefusal::FewLentWords) => Err(FewLent),
    }
}
