//! Lines and what they say, worked out by hand.

/// What a line says, ` <- `, and the line, a row a line; headings begin with `#`. There are 64
/// rows.
pub(crate) const ROWS: &str = r##"# Rows.
rows {__name__="m",job="x"} 1 10 {__name__="m",job="x"} 2.5 20 <- {"metric":{"__name__":"m","job":"x"},"values":[1,2.5,null],"timestamps":[10,20,30]}
rows {a="1",b="2"} 0 5 <-  { "timestamps" : [ 5 ] , "x" : [{}] , "values" : [ -0 ] , "metric" : { "b" : "2" , "a" : "1" } } 
rows {a="1"} 100 3 {a="1"} 1.5 2 {a="1"} -0.0015 1 <- {"metric":{"a":"1","b":""},"values":[1E+2,1.50,-1.5e-3],"timestamps":[3,2,1]}
rows {a="1"} 1.23456789012345679e+39 0 <- {"metric":{"a":"1"},"values":[1234567890123456789012345678901234567890],"timestamps":[0]}
rows {a="1"} 7 281474976710655 <- {"metric":{"a":"1"},"values":["NaN",null,"+Inf","-infinity",7],"timestamps":[1,2,3,4,281474976710655]}
rows {a="A\n\"\\/é😀😀"} 1 1 <- {"\u006detric":{"\u0061":"\u0041\n\"\\\/é😀\ud83d\ude00"},"values":[1],"timestamps":[1]}
rows <- {"metric":{"a":"1"},"values":[],"timestamps":[]}
rows <- {"metric":{"a":"1"},"values":[null,"nan","Inf","-INF","+infinity"],"timestamps":[1,2,3,4,5]}
rows {a="1"} 7 1 <- {"x":1,"metric":{"a":"1"},"x":["\ud83d\ude00"],"values":[7],"timestamps":[1],"":{"values":[]}}
# At the limits of a value, and rounded half to even.
rows {a="1"} 1e+350 1 {a="1"} -1e-350 1 {a="1"} 0 1 {a="1"} 0 1 <- {"metric":{"a":"1"},"values":[1e350,-1E-350,0e400,-0.0],"timestamps":[1,1,1,1]}
rows {a="1"} 0.123456789012345678 1 {a="1"} 0.123456789012345678 2 <- {"metric":{"a":"1"},"values":[0.1234567890123456785,0.1234567890123456775],"timestamps":[1,2]}
rows {a="1"} 1000000000000000000 1 {a="1"} 1000000000000000000 2 <- {"metric":{"a":"1"},"values":[999999999999999999.5,100000000000000000000e-2],"timestamps":[1,2]}
# No JSON.
skipped 3 <- nul
skipped 32 <- {"metric":{"a":"1"},"values":[1,],"timestamps":[1]}
skipped 31 <- {"metric":{"a":"1"},"values":[01],"timestamps":[1]}
skipped 49 <- {"metric":{"a":"1"},"values":[1],"timestamps":[1]
skipped 50 <- {"metric":{"a":"1"},"values":[1],"timestamps":[1]}}
skipped 30 <- {"metric":{"a":"1"},"values":[NaN],"timestamps":[1]}
# JSON, but no series.
skipped 0 <- []
skipped 0 <- 1
skipped 0 <- {}
skipped 0 <- {"metric":{},"values":[],"timestamps":[]}
skipped 0 <- {"metric":{"a":"1"},"values":[1],"timestamps":[1,2]}
skipped 0 <- {"metric":{"a":"1"},"values":[1],"timestamps":[1],"values":[1]}
skipped 0 <- {"metric":{"a":"1"},"values":[1],"timestamps":[1],"v\u0061lues":0}
skipped 0 <- {"metric":{"a":1},"values":[1],"timestamps":[1]}
skipped 0 <- {"metric":["a"],"values":[1],"timestamps":[1]}
skipped 0 <- {"metric":{"a":"1"},"values":{},"timestamps":[]}
skipped 0 <- {"metric":{"a":"1"},"values":[true],"timestamps":[1]}
skipped 0 <- {"metric":{"a":"1"},"values":[[1]],"timestamps":[1]}
skipped 0 <- {"metric":{"a":"1"},"values":["1"],"timestamps":[1]}
skipped 0 <- {"metric":{"a":"1"},"values":[1e400],"timestamps":[1]}
skipped 0 <- {"metric":{"a":"1"},"values":[1],"timestamps":[-0]}
skipped 0 <- {"metric":{"a":"1"},"values":[1],"timestamps":[1.0]}
skipped 0 <- {"metric":{"a":"1"},"values":[1],"timestamps":[1e3]}
skipped 0 <- {"metric":{"a":"1"},"values":[1],"timestamps":["1"]}
skipped 0 <- {"metric":{"a":"1"},"values":[1],"timestamps":[281474976710656]}
skipped 0 <- {"metric":{"a-b":"1"},"values":[1],"timestamps":[1]}
skipped 0 <- {"metric":{"a":"1","\u0061":"2"},"values":[1],"timestamps":[1]}
# A member is missing, stands twice, or is of another kind.
skipped 0 <- {"values":[1],"timestamps":[1]}
skipped 0 <- {"metric":{"a":"1"},"timestamps":[1]}
skipped 0 <- {"metric":{"a":"1"},"values":[1]}
skipped 0 <- {"metric":{"a":"1"},"metric":{"a":"1"},"values":[1],"timestamps":[1]}
skipped 0 <- {"metric":{"a":"1"},"timestamps":[1],"values":[1],"timestamps":[1]}
skipped 0 <- {"metric":null,"values":[1],"timestamps":[1]}
skipped 0 <- {"metric":{"a":"1"},"values":null,"timestamps":[]}
skipped 0 <- {"metric":{"a":"1"},"values":[],"timestamps":{}}
skipped 0 <- {"metric":{"a":null},"values":[1],"timestamps":[1]}
skipped 0 <- {"metric":{"a":"1"},"values":[1,2],"timestamps":[1]}
# A value or a time out of range, or none.
skipped 0 <- {"metric":{"a":"1"},"values":[1e351],"timestamps":[1]}
skipped 0 <- {"metric":{"a":"1"},"values":[-1e-351],"timestamps":[1]}
skipped 0 <- {"metric":{"a":"1"},"values":["inf "],"timestamps":[1]}
skipped 0 <- {"metric":{"a":"1"},"values":[1],"timestamps":[-1]}
skipped 0 <- {"metric":{"a":"1"},"values":[1],"timestamps":[null]}
skipped 0 <- {"metric":{"a":"1"},"values":[1],"timestamps":[99999999999999999999]}
# No label set.
skipped 0 <- {"metric":{"":"1"},"values":[1],"timestamps":[1]}
skipped 0 <- {"metric":{"a":""},"values":[1],"timestamps":[1]}
# Half a pair of UTF-16, in a member that counts and in one that doesn't.
skipped 0 <- {"metric":{"a":"\ud83d\u0041"},"values":[1],"timestamps":[1]}
skipped 0 <- {"metric":{"a":"\ude00\ud83d"},"values":[1],"timestamps":[1]}
skipped 0 <- {"metric":{"a":"\ud83d\ud83d\ude00"},"values":[1],"timestamps":[1]}
skipped 0 <- {"metric":{"a":"\ud83dx"},"values":[1],"timestamps":[1]}
skipped 0 <- {"metric":{"a":"\ud800"},"values":[1],"timestamps":[1]}
skipped 0 <- {"metric":{"a":"1"},"values":[1],"timestamps":[1],"x":["\ud800","\udc00"]}
skipped 0 <- {"metric":{"a":"1"},"values":[1],"timestamps":[1],"\udc00\ud800":0}
"##;
