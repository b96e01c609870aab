// The script of a demonstration.
ghost use Rattle.std.specs.Prelude.{◌≡◌};
ghost use Rattle.blink_gen.specs.Demo.{demo_script};

const SCRIPT: &str = "\
CREATE TABLE date (d_datekey INT PRIMARY KEY, d_year INT, d_month INT);
CREATE TABLE customer (c_custkey INT PRIMARY KEY, c_city TEXT, c_region TEXT);
CREATE TABLE part (p_partkey INT PRIMARY KEY, p_category TEXT, p_brand TEXT);
CREATE TABLE lineorder (lo_orderkey INT, lo_custkey INT, lo_partkey INT,
  lo_orderdate INT, lo_quantity INT, lo_discount INT, lo_price INT,
  lo_revenue INT);
LOAD INTO date FROM 'date.csv';
LOAD INTO customer FROM 'customer.csv';
LOAD INTO part FROM 'part.csv';
LOAD INTO lineorder FROM 'lineorder.csv';
SELECT SUM(lo_price*lo_discount) AS revenue FROM lineorder, date
  WHERE lo_orderdate = d_datekey AND d_year = 1996
  AND lo_discount BETWEEN 1 AND 3 AND lo_quantity < 25;
SELECT SUM(lo_price*lo_discount) AS revenue FROM lineorder, date
  WHERE lo_orderdate = d_datekey AND d_datekey = 199608
  AND lo_discount BETWEEN 7 AND 10 AND lo_quantity BETWEEN 26 AND 35;
SELECT SUM(lo_revenue) AS r, d_year, p_brand FROM lineorder, date, part
  WHERE lo_orderdate = d_datekey AND lo_partkey = p_partkey
  AND p_category = 'CAT4' GROUP BY d_year, p_brand
  ORDER BY d_year, p_brand;
SELECT lo_discount, COUNT(*), AVG(lo_quantity) FROM lineorder
  GROUP BY lo_discount;
SELECT c_city, SUM(lo_revenue) AS r FROM lineorder, customer, date
  WHERE lo_custkey = c_custkey AND lo_orderdate = d_datekey
  AND c_region IN ('ASIA', 'MIDDLE EAST') AND d_year >= 1996
  GROUP BY c_city ORDER BY r DESC LIMIT 5;
SELECT MIN(lo_price), MAX(lo_price), COUNT(*) FROM lineorder
  WHERE lo_partkey <= 10 OR lo_discount > 8;
SELECT p_category, MAX(p_brand) FROM part WHERE p_brand LIKE 'BRAND1%'
  GROUP BY p_category;
SELECT lo_orderkey, d_month, c_city FROM lineorder, customer, part, date
  WHERE lo_custkey = c_custkey AND lo_partkey = p_partkey
  AND lo_orderdate = d_datekey AND p_brand = 'BRAND14'
  ORDER BY lo_orderkey LIMIT 3;
";

/// The script of the demonstration: it makes four tables, loads their files, and asks eight queries. Source: this
/// project's own.
#[tactic(auto, unfolding(crate::specs::Demo::demo_script))]
pub fn script() -> &'static str
    ensures { result.now ≡ demo_script }
{
    SCRIPT
}
