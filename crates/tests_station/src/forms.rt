//! Reports as rows of comma-separated fields and as JSON objects. Each text that is expected was
//! written out by hand.

use crate::run::{SOURCE, TESTS, gives, has_number, of_files, plain};
use crate::text::bytes_of;
use std::alloc::Global;
use std::thread::Threads;
use tests_memory::Fail;

const CSV: &str = "report|s.c|t.csv|--format|csv";

const JSON: &str = "report|s.c|t.csv|--format|json";

const JUSTIFIED_CSV: &str = "report|--justify|j.json|--format=csv|s.c|t.csv";

const JUSTIFIED_JSON: &str = "report|--justify|j.json|--format=json|s.c|t.csv";

/// The rows of a report of which all is met.
const ROWS: &str = "\
id,line,column,verdict,first,first_test,second,second_test,text,reason
E1,1,5,met,,t1,,,f,
X1,1,20,met,,t1,,,return a&&b;,
S1,1,20,met,,t1,,,return a&&b;,
D1T,1,27,met,,t1,,,a&&b,
D1F,1,27,met,,t2,,,a&&b,
D1C1,1,27,met,TT=T,t1,F-=F,t3,a,
D1C2,1,30,met,TT=T,t1,TF=F,t2,b,
";

/// The object of that report.
const OBJECT: &str = "\
{'counts':{'conditions':{'justified':0,'met':2,'missing':0,'stale':0,'total':2},\
'entries':{'justified':0,'met':1,'missing':0,'stale':0,'total':1},\
'exits':{'justified':0,'met':1,'missing':0,'stale':0,'total':1},\
'labels':{'justified':0,'met':0,'missing':0,'stale':0,'total':0},\
'outcomes':{'justified':0,'met':2,'missing':0,'stale':0,'total':2},\
'statements':{'justified':0,'met':1,'missing':0,'stale':0,'total':1}},\
'mode':'unique','obligations':[\
{'by':[{'test':'t1','vector':null}],'column':5,'id':'E1','line':1,'reason':null,'verdict':'met'},\
{'by':[{'test':'t1','vector':null}],'column':20,'id':'X1','line':1,'reason':null,'verdict':'met'},\
{'by':[{'test':'t1','vector':null}],'column':20,'id':'S1','line':1,'reason':null,'verdict':'met'},\
{'by':[{'test':'t1','vector':null}],'column':27,'id':'D1T','line':1,'reason':null,'verdict':'met'},\
{'by':[{'test':'t2','vector':null}],'column':27,'id':'D1F','line':1,'reason':null,'verdict':'met'},\
{'by':[{'test':'t1','vector':'TT=T'},{'test':'t3','vector':'F-=F'}],\
'column':27,'id':'D1C1','line':1,'reason':null,'verdict':'met'},\
{'by':[{'test':'t1','vector':'TT=T'},{'test':'t2','vector':'TF=F'}],\
'column':30,'id':'D1C2','line':1,'reason':null,'verdict':'met'}],\
'source':'8200d2384991a90c0fb5f6a208a7f0176cae5c6443e46177ef6bfd44c40d4caf','status':0,\
'tests':[\
{'name':'t1','output':[],'state':'pass','values':[1]},\
{'name':'t2','output':[],'state':'pass','values':[0]},\
{'name':'t3','output':[],'state':'pass','values':[0]}]}
";

const TWO_TESTS: &str = "\
test,call,arguments,inputs,expect,output
t1,f,1 1,,,
t2,f,0 0,,,
";

/// A condition that has no pair, and a statement that is met.
const JUSTIFICATIONS: &str = "[{'id':'D1C2','quote':'b','reason':'b is stuck, \\'always\\''},\
{'id':'S1','quote':'return a&&b;','reason':'x'}]";

const JUSTIFIED_ROWS: &str = "\
id,line,column,verdict,first,first_test,second,second_test,text,reason
E1,1,5,met,,t1,,,f,
X1,1,20,met,,t1,,,return a&&b;,
S1,1,20,stale,,t1,,,return a&&b;,x
D1T,1,27,met,,t1,,,a&&b,
D1F,1,27,met,,t2,,,a&&b,
D1C1,1,27,met,TT=T,t1,F-=F,t2,a,
D1C2,1,30,justified,,,,,b,'b is stuck, ''always'''
";

const JUSTIFIED_OBJECT: &str = "\
{'counts':{'conditions':{'justified':1,'met':1,'missing':0,'stale':0,'total':2},\
'entries':{'justified':0,'met':1,'missing':0,'stale':0,'total':1},\
'exits':{'justified':0,'met':1,'missing':0,'stale':0,'total':1},\
'labels':{'justified':0,'met':0,'missing':0,'stale':0,'total':0},\
'outcomes':{'justified':0,'met':2,'missing':0,'stale':0,'total':2},\
'statements':{'justified':0,'met':0,'missing':0,'stale':1,'total':1}},\
'mode':'unique','obligations':[\
{'by':[{'test':'t1','vector':null}],'column':5,'id':'E1','line':1,'reason':null,'verdict':'met'},\
{'by':[{'test':'t1','vector':null}],'column':20,'id':'X1','line':1,'reason':null,'verdict':'met'},\
{'by':[{'test':'t1','vector':null}],'column':20,'id':'S1','line':1,'reason':'x','verdict':'stale'},\
{'by':[{'test':'t1','vector':null}],'column':27,'id':'D1T','line':1,'reason':null,'verdict':'met'},\
{'by':[{'test':'t2','vector':null}],'column':27,'id':'D1F','line':1,'reason':null,'verdict':'met'},\
{'by':[{'test':'t1','vector':'TT=T'},{'test':'t2','vector':'F-=F'}],\
'column':27,'id':'D1C1','line':1,'reason':null,'verdict':'met'},\
{'by':[],\
'column':30,'id':'D1C2','line':1,'reason':'b is stuck, \\'always\\'','verdict':'justified'}],\
'source':'8200d2384991a90c0fb5f6a208a7f0176cae5c6443e46177ef6bfd44c40d4caf','status':1,\
'tests':[\
{'name':'t1','output':[],'state':'pass','values':[1]},\
{'name':'t2','output':[],'state':'pass','values':[0]}]}
";

/// A span with quotation marks, a comma and the end of a line.
const QUOTED: &str = "int f(int a,int b){return a/*'q',^$*/&&b;}";

const QUOTED_ROWS: &str = "\
id,line,column,verdict,first,first_test,second,second_test,text,reason
E1,1,5,met,,t1,,,f,
X1,1,20,met,,t1,,,'return a/*''q'',^$*/&&b;',
S1,1,20,met,,t1,,,'return a/*''q'',^$*/&&b;',
D1T,1,27,met,,t1,,,'a/*''q'',^$*/&&b',
D1F,1,27,met,,t2,,,'a/*''q'',^$*/&&b',
D1C1,1,27,met,TT=T,t1,F-=F,t3,a,
D1C2,2,5,met,TT=T,t1,TF=F,t2,b,
";

/// A span that is no UTF-8 stands in its row as it is.
const NO_UTF8: &str = "int f(int a,int b){return a&&/*?*/b;}";

const NO_UTF8_ROWS: &str = "\
id,line,column,verdict,first,first_test,second,second_test,text,reason
E1,1,5,met,,t1,,,f,
X1,1,20,met,,t1,,,return a&&/*?*/b;,
S1,1,20,met,,t1,,,return a&&/*?*/b;,
D1T,1,27,met,,t1,,,a&&/*?*/b,
D1F,1,27,met,,t2,,,a&&/*?*/b,
D1C1,1,27,met,TT=T,t1,F-=F,t3,a,
D1C2,1,35,met,TT=T,t1,TF=F,t2,b,
";

/// Calls without a value, with a wide one and with none that returns.
const KINDS: &str =
    "void mcdc_out(int v);void f(int n){mcdc_out(n);}unsigned long g(void){return -1;}\
int h(int a){return 1/a;}";

const KINDS_TESTS: &str = "\
test,call,arguments,inputs,expect,output
t1,f,-7,,,
t2,g,,,,
t3,h,0,,,
";

const KINDS_ROWS: &str = "\
id,line,column,verdict,first,first_test,second,second_test,text,reason
E1,1,27,met,,t1,,,f,
E2,1,63,met,,t2,,,g,
E3,1,86,met,,t3,,,h,
X1,1,48,met,,t1,,,},
X2,1,71,met,,t2,,,return -1;,
X3,1,95,missing,,,,,return 1/a;,
S1,1,36,met,,t1,,,mcdc_out(n);,
S2,1,71,met,,t2,,,return -1;,
S3,1,95,met,,t3,,,return 1/a;,
";

const KINDS_OBJECT: &str = "\
{'counts':{'conditions':{'justified':0,'met':0,'missing':0,'stale':0,'total':0},\
'entries':{'justified':0,'met':3,'missing':0,'stale':0,'total':3},\
'exits':{'justified':0,'met':2,'missing':1,'stale':0,'total':3},\
'labels':{'justified':0,'met':0,'missing':0,'stale':0,'total':0},\
'outcomes':{'justified':0,'met':0,'missing':0,'stale':0,'total':0},\
'statements':{'justified':0,'met':3,'missing':0,'stale':0,'total':3}},\
'mode':'unique','obligations':[\
{'by':[{'test':'t1','vector':null}],'column':27,'id':'E1','line':1,'reason':null,'verdict':'met'},\
{'by':[{'test':'t2','vector':null}],'column':63,'id':'E2','line':1,'reason':null,'verdict':'met'},\
{'by':[{'test':'t3','vector':null}],'column':86,'id':'E3','line':1,'reason':null,'verdict':'met'},\
{'by':[{'test':'t1','vector':null}],'column':48,'id':'X1','line':1,'reason':null,'verdict':'met'},\
{'by':[{'test':'t2','vector':null}],'column':71,'id':'X2','line':1,'reason':null,'verdict':'met'},\
{'by':[],'column':95,'id':'X3','line':1,'reason':null,'verdict':'missing'},\
{'by':[{'test':'t1','vector':null}],'column':36,'id':'S1','line':1,'reason':null,'verdict':'met'},\
{'by':[{'test':'t2','vector':null}],'column':71,'id':'S2','line':1,'reason':null,'verdict':'met'},\
{'by':[{'test':'t3','vector':null}],'column':95,'id':'S3','line':1,'reason':null,'verdict':'met'}],\
'source':'f9b126e209c0a7ab2720e4f9ec59163c227db583f57b02f97127d86b0a655a6e','status':1,\
'tests':[\
{'name':'t1','output':[-7],'state':'pass','values':[null]},\
{'name':'t2','output':[],'state':'pass','values':[18446744073709551615]},\
{'name':'t3','output':[],'state':'trap-division','values':[]}]}
";

/// The words, the source, the tests, the status and what is written. In the source and in what is
/// written `'` is a quotation mark, `^` a carriage return, `$` a line feed and `?` the byte 200.
static REPORTS: [(&str, &str, &str, u8, &str); 8] = [
    (CSV, SOURCE, TESTS, 0, ROWS),
    (JSON, SOURCE, TESTS, 0, OBJECT),
    (JUSTIFIED_CSV, SOURCE, TWO_TESTS, 1, JUSTIFIED_ROWS),
    (JUSTIFIED_JSON, SOURCE, TWO_TESTS, 1, JUSTIFIED_OBJECT),
    (CSV, QUOTED, TESTS, 0, QUOTED_ROWS),
    (CSV, NO_UTF8, TESTS, 0, NO_UTF8_ROWS),
    (CSV, KINDS, KINDS_TESTS, 1, KINDS_ROWS),
    (JSON, KINDS, KINDS_TESTS, 1, KINDS_OBJECT),
];

fn is_written<R: Threads + Sync>(
    rt: &R,
    alloc: Global,
    words: &str,
    source: &str,
    tests: &str,
    want: (u8, &str),
) -> Result<bool, Fail> {
    let (status, written) = want;
    let source = bytes_of(alloc, source)?;
    let justifications = bytes_of(alloc, JUSTIFICATIONS)?;
    let written = bytes_of(alloc, written)?;
    let setting = of_files(words, &source, tests.as_bytes(), &justifications);
    let is_wanted = gives(rt, alloc, &setting, (status, &written, b""));
    drop(written);
    drop(justifications);
    drop(source);
    is_wanted
}

#[test]
fn reports_in_both_forms(rt: HostRuntime) -> Result<(), Fail> {
    for (words, source, tests, status, written) in &REPORTS {
        let is_written = is_written(&rt, rt.alloc(), words, source, tests, (*status, written))?;
        assert!(rt; is_written, "{words} {source}");
    }
    Ok(())
}

/// The same by this number of workers.
fn is_written_by<R: Threads + Sync>(
    rt: &R,
    alloc: Global,
    words: &str,
    workers: u32,
    source: &str,
    tests: &str,
    want: (u8, &str),
) -> Result<bool, Fail> {
    let words = format!(in alloc; "{words}|--workers|{workers}")?;
    let is_wanted = is_written(rt, alloc, words.as_str(), source, tests, want);
    drop(words);
    is_wanted
}

#[test]
fn one_worker_or_many_report_in_both_forms(rt: HostRuntime) -> Result<(), Fail> {
    for (words, source, tests, status, written) in &REPORTS {
        let want = (*status, *written);
        assert!(rt;
            is_written_by(&rt, rt.alloc(), words, 1, source, tests, want)?,
            "{words} {source}"
        );
        assert!(rt;
            is_written_by(&rt, rt.alloc(), words, 64, source, tests, want)?,
            "{words} {source}"
        );
    }
    Ok(())
}

#[test]
fn the_object_is_read_again(rt: HostRuntime) -> Result<(), Fail> {
    let mut setting = plain(SOURCE.as_bytes(), TESTS.as_bytes());
    setting.words = JSON;
    assert!(rt; has_number(&rt, rt.alloc(), &setting, "status", 0)?);
    Ok(())
}

const HEADER_ROW: &str = "\
id,line,column,verdict,first,first_test,second,second_test,text,reason
";

const HEADER_AND_PART: &str = "\
id,line,column,verdict,first,first_test,second,second_test,text,reason
E1,1,";

const THREE_ROWS: &str = "\
id,line,column,verdict,first,first_test,second,second_test,text,reason
E1,1,5,met,,t1,,,f,
X1,1,20,met,,t1,,,'return a/*''q'',^$*/&&b;',
";

/// The words, the source, the put on the output that fails with how many bytes it takes, and what
/// is written by then with status 7. A row is one put, and so is an object with its line end.
static PUTS: [(&str, &str, (u32, u32), &str); 4] = [
    (CSV, SOURCE, (2, 0), HEADER_ROW),
    (CSV, SOURCE, (2, 5), HEADER_AND_PART),
    (CSV, QUOTED, (4, 0), THREE_ROWS),
    (JSON, SOURCE, (1, 5), "{'cou"),
];

fn is_put<R: Threads + Sync>(
    rt: &R,
    alloc: Global,
    words: &str,
    source: &str,
    failing: (u32, u32),
    want: (u8, &str),
) -> Result<bool, Fail> {
    let (status, written) = want;
    let source = bytes_of(alloc, source)?;
    let written = bytes_of(alloc, written)?;
    let mut setting = of_files(words, &source, TESTS.as_bytes(), b"[]");
    setting.failing_out = failing;
    let is_wanted = gives(rt, alloc, &setting, (status, &written, b""));
    drop(written);
    drop(source);
    is_wanted
}

#[test]
fn puts_of_both_forms(rt: HostRuntime) -> Result<(), Fail> {
    for (words, source, failing, written) in &PUTS {
        let is_put = is_put(&rt, rt.alloc(), words, source, *failing, (7, written))?;
        assert!(rt; is_put, "{words} {source}");
    }
    // There is no second put of an object.
    assert!(rt; is_put(&rt, rt.alloc(), JSON, SOURCE, (2, 0), (0, OBJECT))?);
    Ok(())
}
